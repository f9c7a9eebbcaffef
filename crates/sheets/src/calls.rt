// Opening a sheet, RULE, ASSUME and RELEASE.
ghost use Rattle.std.specs.Prelude.{◌≡◌, ◌<◌, true, [], length};
ghost use Rattle.literals.specs.Literals.{names};
ghost use Rattle.tables.specs.Tables.{items};
ghost use Rattle.solver.specs.Meaning.{add_fault, with_rule};
ghost use Rattle.solver.specs.Over.{meaning_of};
ghost use Rattle.sheets.specs.Sheets.{sheet_meaning, New, opened, ruled, rule_answer, after_rule, assume_fault, admitted, next_ticket, assume_answer, with_held, after_assume, numbered_at, held_at, release_answer, without_held, after_release};

use super::{Held, Sheet, Ticket, Unreleased};
use faults::{SheetFault, SolverFault};
use literals::names_one_of;
use solver::Solver;
use tables::table::Table;

// Adds a rule to a solver; its fault is handed on whole.
fn add_rule<S: Solver>(solver: &mut S, literals: &[i8]) -> Result<(), SheetFault>
    ensures answer { result ≡ ruled (add_fault (meaning_of S.Solver solver.old) literals.now) }
    ensures rule_added { meaning_of S.Solver solver.new ≡ with_rule (meaning_of S.Solver solver.old) literals.now }
{
    solver.add(literals)?;
    Ok(())
}

// The place of the first held entry with a number.
fn place_of(held: &[Held], number: u16) -> Option<usize>
    ensures first { result ≡ numbered_at number held.now }
{
    held.iter().position(|entry| entry.number == number)
}

impl Ticket {
    // The label of the sheet that issued it.
    pub fn label(&self) -> u16
        ensures label { result ≡ self.now.label }
    {
        self.label
    }

    // Its issue number.
    pub fn number(&self) -> u16
        ensures number { result ≡ self.now.number }
    {
        self.number
    }
}

impl<S: Solver> Sheet<S> {
    // A sheet over a solver, whose bars are cleared.
    pub fn open(mut solver: S, label: u16) -> Self
        ensures opened { sheet_meaning S.Solver result ≡ opened (meaning_of S.Solver solver) label }
        ensures new { S.Solver.added solver ≡ [] → New S.Solver result }
    {
        solver.clear();
        let held = Table::new(Held {
            literal: 0,
            number: 0,
        });
        Sheet {
            solver,
            label,
            held,
            count: 0,
        }
    }

    // RULE: adds the rule.
    pub fn rule(&mut self, literals: &[i8]) -> Result<(), SheetFault>
        ensures answer { result ≡ rule_answer (sheet_meaning S.Solver self.old) literals.now }
        ensures rule_added { sheet_meaning S.Solver self.new ≡ after_rule (sheet_meaning S.Solver self.old) literals.now }
    {
        add_rule(&mut self.solver, literals)
    }

    // Whether ASSUME accepts a literal.
    fn admit(&self, literal: i8) -> Result<(), SheetFault>
        ensures answer { result ≡ admitted (assume_fault (sheet_meaning S.Solver self.now) literal) }
    {
        if !names_one_of(self.solver.contacts(), literal) {
            return Err(SheetFault::Solver(SolverFault::BadLiteral(0)));
        }
        if self.held.len() >= 32 {
            return Err(SheetFault::TooManyHeld);
        }
        if self.count >= 65535 {
            return Err(SheetFault::TooManyTickets);
        }
        Ok(())
    }

    // Places a literal last among the held ones and issues its ticket.
    fn hold(&mut self, literal: i8) -> Ticket
        requires named { names (S.Solver.size self.old.solver) literal ≡ true }
        requires room { length (items self.old.held) < 32 }
        requires numbers_left { self.old.count < 65535 }
        ensures ticket { result ≡ next_ticket (sheet_meaning S.Solver self.old) }
        ensures held { sheet_meaning S.Solver self.new ≡ with_held (sheet_meaning S.Solver self.old) literal }
    {
        let number = self.count + 1;
        let _ = self.held.push(Held { literal, number });
        self.count = number;
        Ticket {
            label: self.label,
            number,
        }
    }

    // ASSUME: places a literal last among the held ones and issues a ticket for it.
    pub fn assume(&mut self, literal: i8) -> Result<Ticket, SheetFault>
        ensures answer { result ≡ assume_answer (sheet_meaning S.Solver self.old) (assume_fault (sheet_meaning S.Solver self.old) literal) }
        ensures held { sheet_meaning S.Solver self.new ≡ after_assume (sheet_meaning S.Solver self.old) literal (assume_fault (sheet_meaning S.Solver self.old) literal) }
    {
        self.admit(literal)?;
        Ok(self.hold(literal))
    }

    // The place of the assumption that a ticket was issued for, if it is held here.
    fn place_for(&self, ticket: &Ticket) -> Option<usize>
        ensures place { result ≡ held_at (sheet_meaning S.Solver self.now) ticket.now }
    {
        if ticket.label == self.label {
            place_of(self.held.as_slice(), ticket.number)
        } else {
            None
        }
    }

    // Takes the assumption at a place out.
    #[tactic(auto, using(crate::proofs::Order::named_without))]
    fn strike(&mut self, place: usize)
        ensures struck { sheet_meaning S.Solver self.new ≡ without_held (sheet_meaning S.Solver self.old) place }
    {
        let _ = self.held.remove(place);
    }

    // RELEASE: the assumption that the ticket was issued for leaves, and that spends the ticket; a ticket whose assumption is not held here is handed back.
    pub fn release(&mut self, ticket: Ticket) -> Result<(), Unreleased>
        ensures answer { result ≡ release_answer (held_at (sheet_meaning S.Solver self.old) ticket) ticket }
        ensures released { sheet_meaning S.Solver self.new ≡ after_release (sheet_meaning S.Solver self.old) (held_at (sheet_meaning S.Solver self.old) ticket) }
    {
        match self.place_for(&ticket) {
            None => Err(Unreleased {
                fault: SheetFault::NotHeld,
                ticket,
            }),
            Some(place) => {
                self.strike(place);
                let Ticket {
                    label: _,
                    number: _,
                } = ticket;
                Ok(())
            }
        }
    }
}
