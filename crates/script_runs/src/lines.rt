// Obeying a line.
ghost use Rattle.std.specs.Prelude.{◌≡◌, IfOk, MatchResult};
ghost use Rattle.sheets.specs.Sheets.{sheet_meaning};
ghost use Rattle.scripts.specs.Forms.{form, action_form, call};
ghost use Rattle.script_runs.specs.Outcomes.{outcome_form};
ghost use Rattle.script_runs.specs.Obeyed.{sided, make_released, break_released, release_outcome, outcome_of, make_obeyed, break_obeyed, call_outcome};
ghost use Rattle.script_runs.specs.Keeping.{Keeps};

use crate::turns::{ask, assume, release_from};
use crate::{Kept, Outcome, PairWithTickets};
use model::Side;
use scripts::{Action, Line};
use session::request::{Request, SheetCall};
use settings::Term;
use sheets::Sheet;
use solver::Solver;
use std::alloc::{AllocError, Global};

// The labels of the two sheets.
const MAKE: u16 = 1;

const BREAK: u16 = 2;

// Releases the ticket of a label and number, if it is kept, on one sheet of the pair.
fn release<M: Solver, B: Solver>(
    make: &mut Sheet<M>,
    brk: &mut Sheet<B>,
    kept: &mut Kept,
    side: Side,
    label: u16,
    number: u16,
) -> Outcome
    requires keeps { Keeps (sheet_meaning M.Solver make.old) (sheet_meaning B.Solver brk.old) kept.old }
    ensures answer { outcome_form result ≡ release_outcome side (sheet_meaning M.Solver make.old) (sheet_meaning B.Solver brk.old) (record { label = label; number = number }) }
    ensures make_after { sheet_meaning M.Solver make.new ≡ make_released side (sheet_meaning M.Solver make.old) (record { label = label; number = number }) }
    ensures break_after { sheet_meaning B.Solver brk.new ≡ break_released side (sheet_meaning B.Solver brk.old) (record { label = label; number = number }) }
    ensures keeps { Keeps (sheet_meaning M.Solver make.new) (sheet_meaning B.Solver brk.new) kept.new }
{
    if label == MAKE {
        release_from(make, brk, &mut kept.make, Side::Make, side, number)
    } else if label == BREAK {
        release_from(make, brk, &mut kept.brk, Side::Break, side, number)
    } else {
        Outcome::NoTicket
    }
}

// How many contacts the sheet of a side has.
fn contacts_of<M: Solver, B: Solver>(make: &Sheet<M>, brk: &Sheet<B>, side: Side) -> usize
    ensures contacts { result ≡ (sided side (sheet_meaning M.Solver make.now) (sheet_meaning B.Solver brk.now)).meaning.contacts }
{
    match side {
        Side::Make => make.solver.contacts(),
        Side::Break => brk.solver.contacts(),
    }
}

// What a line asks of one sheet.
fn obey_action<M: Solver, B: Solver>(
    heap: Global,
    make: &mut Sheet<M>,
    brk: &mut Sheet<B>,
    kept: &mut Kept,
    side: Side,
    action: Action,
) -> Result<Outcome, AllocError>
    requires keeps { Keeps (sheet_meaning M.Solver make.old) (sheet_meaning B.Solver brk.old) kept.old }
    ensures answer { IfOk result (λ o. outcome_form o ≡ call_outcome (sheet_meaning M.Solver make.old) (sheet_meaning B.Solver brk.old) side (action_form action)) }
    ensures make_after { MatchResult result (λ _. sheet_meaning M.Solver make.new ≡ make_obeyed (sheet_meaning M.Solver make.old) (call side (action_form action))) (λ _. sheet_meaning M.Solver make.new ≡ sheet_meaning M.Solver make.old) }
    ensures break_after { MatchResult result (λ _. sheet_meaning B.Solver brk.new ≡ break_obeyed (sheet_meaning B.Solver brk.old) (call side (action_form action))) (λ _. sheet_meaning B.Solver brk.new ≡ sheet_meaning B.Solver brk.old) }
    ensures keeps { Keeps (sheet_meaning M.Solver make.new) (sheet_meaning B.Solver brk.new) kept.new }
{
    let contacts = contacts_of(make, brk, side);
    match action {
        Action::Rule(rule) => {
            let request = Request::Sheet(side, SheetCall::Rule(rule));
            Ok(ask(make, brk, contacts, request))
        }
        Action::Assume(literal) => match side {
            Side::Make => Ok(assume(make, brk, &mut kept.make, Side::Make, literal)),
            Side::Break => Ok(assume(make, brk, &mut kept.brk, Side::Break, literal)),
        },
        Action::Release(label, number) => Ok(release(make, brk, kept, side, label, number)),
        Action::Least(length) => {
            let request = Request::Sheet(
                side,
                SheetCall::Least(vec![in heap; 0; length as usize]?),
            );
            Ok(ask(make, brk, contacts, request))
        }
        Action::Why(length) => {
            let request = Request::Sheet(side, SheetCall::Why(vec![in heap; 0; length as usize]?));
            Ok(ask(make, brk, contacts, request))
        }
        Action::Write(_) => Ok(Outcome::Bad),
    }
}

// Obeys a line through the calls of a pair of lent sheets, with the tickets that they gave out. Nothing is changed where there is no memory for a buffer.
pub fn obey<M: Solver, B: Solver>(
    heap: Global,
    make: &mut Sheet<M>,
    brk: &mut Sheet<B>,
    kept: &mut Kept,
    line: Line,
) -> Result<Outcome, AllocError>
    requires keeps { Keeps (sheet_meaning M.Solver make.old) (sheet_meaning B.Solver brk.old) kept.old }
    ensures answer { IfOk result (λ o. outcome_form o ≡ outcome_of (sheet_meaning M.Solver make.old) (sheet_meaning B.Solver brk.old) (form line)) }
    ensures make_after { MatchResult result (λ _. sheet_meaning M.Solver make.new ≡ make_obeyed (sheet_meaning M.Solver make.old) (form line)) (λ _. sheet_meaning M.Solver make.new ≡ sheet_meaning M.Solver make.old) }
    ensures break_after { MatchResult result (λ _. sheet_meaning B.Solver brk.new ≡ break_obeyed (sheet_meaning B.Solver brk.old) (form line)) (λ _. sheet_meaning B.Solver brk.new ≡ sheet_meaning B.Solver brk.old) }
    ensures keeps { Keeps (sheet_meaning M.Solver make.new) (sheet_meaning B.Solver brk.new) kept.new }
{
    match line {
        Line::Nothing => Ok(Outcome::Silent),
        Line::Bad => Ok(Outcome::Bad),
        Line::Call(side, action) => obey_action(heap, make, brk, kept, side, action),
        Line::Terms(length) => {
            let contacts = contacts_of(make, brk, Side::Make);
            let nothing_wanted = Term {
                closed: 0,
                opened: 0,
            };
            let request = Request::Terms(vec![in heap; nothing_wanted; length as usize]?);
            Ok(ask(make, brk, contacts, request))
        }
    }
}

impl<M: Solver, B: Solver> PairWithTickets<M, B> {
    // Obeys a line through the calls of the pair. Nothing is changed where there is no memory for a buffer.
    pub fn obey(&mut self, heap: Global, line: Line) -> Result<Outcome, AllocError>
        ensures answer { IfOk result (λ o. outcome_form o ≡ outcome_of (sheet_meaning M.Solver self.old.pair.make) (sheet_meaning B.Solver self.old.pair.brk) (form line)) }
        ensures make_after { MatchResult result (λ _. sheet_meaning M.Solver self.new.pair.make ≡ make_obeyed (sheet_meaning M.Solver self.old.pair.make) (form line)) (λ _. sheet_meaning M.Solver self.new.pair.make ≡ sheet_meaning M.Solver self.old.pair.make) }
        ensures break_after { MatchResult result (λ _. sheet_meaning B.Solver self.new.pair.brk ≡ break_obeyed (sheet_meaning B.Solver self.old.pair.brk) (form line)) (λ _. sheet_meaning B.Solver self.new.pair.brk ≡ sheet_meaning B.Solver self.old.pair.brk) }
    {
        obey(
            heap,
            &mut self.pair.make,
            &mut self.pair.brk,
            &mut self.kept,
            line,
        )
    }
}
