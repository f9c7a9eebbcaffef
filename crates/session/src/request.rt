// What engineers ask of a pair of sheets, and what they are answered.
ghost use Rattle.std.specs.Prelude.{◌≡◌};
ghost use Rattle.session.specs.declared.request.Returned.TheVariants.{Nothing, Ticket};

use faults::SheetFault;
use model::Side;
use settings::Term;
use sheets::{Ticket, Unreleased};

// A call on one sheet brings literals, a buffer of its own or any ticket.
pub enum SheetCall {
    Rule(Vec<i8>),
    Assume(i8),
    Release(Ticket),
    Least(Vec<i8>),
    Why(Vec<i8>),
}

// A call on one sheet of the pair, or TERMS on both with a buffer for its records.
pub enum Request {
    Sheet(Side, SheetCall),
    Terms(Vec<Term>),
}

// What an accepted request answers. Buffers come back whole, with what was written at their front: the guarantee speaks of them to the last entry, so a size stands beside.
pub enum Answer {
    Done,
    Issued(Ticket),
    Least(Vec<i8>),
    // how many literals were written
    Why(usize, Vec<i8>),
    // how many terms were written
    Terms(usize, Vec<Term>),
}

// What a refused request hands back, as it was brought.
pub enum Returned {
    Nothing,
    Ticket(Ticket),
    Literals(Vec<i8>),
    Terms(Vec<Term>),
}

// A refused request: the fault, and what it brought.
pub struct Refused {
    pub fault: SheetFault,
    pub returned: Returned,
}

pub type Response = Result<Answer, Refused>;

impl From<SheetFault> for Refused {
    ghost from_gives = { λ f r. r ≡ record { fault = f; returned = Nothing } };

    // It brought nothing that goes back.
    fn from(fault: SheetFault) -> Self {
        Refused {
            fault,
            returned: Returned::Nothing,
        }
    }
}

impl From<Unreleased> for Refused {
    ghost from_gives = { λ u r. r ≡ record { fault = u.fault; returned = Ticket u.ticket } };

    // It brought the ticket.
    fn from(unreleased: Unreleased) -> Self {
        let Unreleased { fault, ticket } = unreleased;
        Refused {
            fault,
            returned: Returned::Ticket(ticket),
        }
    }
}
