// LEAST and WHY.
ghost use Rattle.std.specs.Prelude.{◌≡◌, length};
ghost use Rattle.std.specs.Option.{option_map};
ghost use Rattle.tables.specs.Tables.{items};
ghost use Rattle.queries.specs.Queries.{least_literals, why_literals};
ghost use Rattle.sheets.specs.Sheets.{sheet_meaning, held_literals};
ghost use Rattle.sheets.specs.Answers.{over, least_answer, why_answer, told, counted, written, LeastLaw, WhyLaw};

use super::{Held, Sheet};
use faults::SheetFault;
use queries::{earliest, reason};
use solver::Solver;
use tables::table::Table;

// The literals of the held assumptions, in their order.
fn literals_of(held: &Table<Held, 32>) -> Table<i8, 32>
    ensures listed { items result ≡ held_literals (items held.now) }
{
    let mut literals = Table::new(0);
    for assumption in held.as_slice() {
        let _ = literals.push(assumption.literal);
    }
    literals
}

// Writes a list at the front of a buffer that is long enough.
pub fn write_front<T: Copy>(out: &mut [T], entries: &[T])
    ensures written { out.new ≡ over entries.now out.old }
{
    let size = entries.len();
    if size <= out.len() {
        out[0..size].copy_from_slice(entries);
    }
}

impl<S: Solver> Sheet<S> {
    // The literals of the earliest allowed setting that agrees with all held assumptions.
    fn earliest_held(&mut self) -> Option<Table<i8, 32>>
        ensures found { option_map items result ≡ least_literals (sheet_meaning S.Solver self.old).meaning (held_literals (sheet_meaning S.Solver self.old).held) }
        ensures meaning_kept { sheet_meaning S.Solver self.new ≡ sheet_meaning S.Solver self.old }
    {
        let held = literals_of(&self.held);
        earliest(&mut self.solver, &held).unwrap()
    }

    // The choice of smallest number of the held assumptions that is enough.
    fn reason_held(&mut self) -> Option<Table<i8, 32>>
        ensures found { option_map items result ≡ why_literals (sheet_meaning S.Solver self.old).meaning (held_literals (sheet_meaning S.Solver self.old).held) }
        ensures meaning_kept { sheet_meaning S.Solver self.new ≡ sheet_meaning S.Solver self.old }
    {
        let held = literals_of(&self.held);
        reason(&mut self.solver, &held).unwrap()
    }

    // LEAST by its definition: the buffer is asked for first, and then whether a setting is allowed.
    fn write_least(&mut self, out: &mut [i8]) -> Result<(), SheetFault>
        ensures answer { result ≡ told (least_answer (sheet_meaning S.Solver self.old) (length out.old)) }
        ensures buffer { out.new ≡ written (least_answer (sheet_meaning S.Solver self.old) (length out.old)) out.old }
        ensures meaning_kept { sheet_meaning S.Solver self.new ≡ sheet_meaning S.Solver self.old }
    {
        if out.len() < self.solver.contacts() {
            return Err(SheetFault::ShortBuffer);
        }
        let found = self.earliest_held().ok_or(SheetFault::NoneAllowed)?;
        write_front(out, found.as_slice());
        Ok(())
    }

    // WHY by its definition: the buffer is asked for first, and then whether no setting is allowed.
    fn write_why(&mut self, out: &mut [i8]) -> Result<usize, SheetFault>
        ensures answer { result ≡ counted (why_answer (sheet_meaning S.Solver self.old) (length out.old)) }
        ensures buffer { out.new ≡ written (why_answer (sheet_meaning S.Solver self.old) (length out.old)) out.old }
        ensures meaning_kept { sheet_meaning S.Solver self.new ≡ sheet_meaning S.Solver self.old }
    {
        if out.len() < self.held.len() {
            return Err(SheetFault::ShortBuffer);
        }
        let choice = self.reason_held().ok_or(SheetFault::SomeAllowed)?;
        write_front(out, choice.as_slice());
        Ok(choice.len())
    }

    // LEAST: writes the earliest allowed setting that agrees with all held assumptions, as literals in contact order at the buffer's front.
    pub fn least(&mut self, out: &mut [i8]) -> Result<(), SheetFault>
        ensures answer { result ≡ told (least_answer (sheet_meaning S.Solver self.old) (length out.old)) }
        ensures buffer { out.new ≡ written (least_answer (sheet_meaning S.Solver self.old) (length out.old)) out.old }
        ensures earliest { LeastLaw (sheet_meaning S.Solver self.old) out.new result }
        ensures meaning_kept { sheet_meaning S.Solver self.new ≡ sheet_meaning S.Solver self.old }
    {
        self.write_least(out)
    }

    // WHY: writes the enough choice of smallest number from the held assumptions, in held order at the buffer's front, and answers its size.
    pub fn why(&mut self, out: &mut [i8]) -> Result<usize, SheetFault>
        ensures answer { result ≡ counted (why_answer (sheet_meaning S.Solver self.old) (length out.old)) }
        ensures buffer { out.new ≡ written (why_answer (sheet_meaning S.Solver self.old) (length out.old)) out.old }
        ensures smallest { WhyLaw (sheet_meaning S.Solver self.old) out.new result }
        ensures meaning_kept { sheet_meaning S.Solver self.new ≡ sheet_meaning S.Solver self.old }
    {
        self.write_why(out)
    }
}
