// Obeys the lines of a script on a pair of sheets, MAKE with label 1 and BREAK with label 2.
#![tactic(auto)]

use dimacs::LoadedRules;
use faults::Refusal;
use settings::Term;
use tickets::Tickets;

mod held;
mod keeping;
mod lines;
mod room;
mod shown;
mod turns;
mod write;

pub use held::PairWithTickets;
pub use lines::obey;
pub use room::TicketRoom;
pub use write::write_rules;

// What comes of a line. A buffer comes whole, with what was written at its front, as the pair gave it back.
#[derive(Drop)]
pub enum Outcome {
    // there was nothing to obey
    Silent,
    Bad,
    // no ticket of that label and number is kept
    NoTicket,
    Done,
    // the label and the number of a ticket
    Issued(u16, u16),
    // how many literals were written
    Least(usize, Vec<i8>),
    Why(usize, Vec<i8>),
    // how many contacts there are, and how many terms were written
    Terms(usize, usize, Vec<Term>),
    // how many bytes were written
    Written(usize, Vec<u8>),
    Refused(Refusal),
}

// The tickets that ASSUME gave out and RELEASE has not accepted back, of both sheets.
pub struct Kept {
    make: Tickets,
    brk: Tickets,
}

// What a sheet's solver was loaded with: the rules of a clause text, or the gates of a gate text.
#[derive(Clone, Copy)]
pub enum Source<'a> {
    Clauses(LoadedRules<'a>),
    Gates,
}
