// LEAST and WHY under literals that are assumed for just one question.
#![tactic(auto)]

ghost use Rattle.std.specs.Prelude.{◌≡◌, true, length, is_some};
ghost use Rattle.sheets.specs.Sheets.{sheet_meaning, held_at, after_release};
ghost use Rattle.sheets.specs.Answers.{counted, written};
ghost use Rattle.trials.specs.Trials.{answer_to, answer_under, after_trial};

use faults::SheetFault;
use sheets::{Sheet, Ticket};
use solver::Solver;

// A question to a sheet that is answered with literals in a buffer. It is a value, so that a table can name it and it can be put again for each literal that is assumed.
#[derive(Clone, Copy)]
pub enum Question {
    Least,
    Why,
}

// Gives the ticket of a held assumption back: RELEASE cannot refuse it.
pub fn give_back<S: Solver>(sheet: &mut Sheet<S>, ticket: Ticket)
    requires held { is_some (held_at (sheet_meaning S.Solver sheet.old) ticket) ≡ true }
    ensures released { sheet_meaning S.Solver sheet.new ≡ after_release (sheet_meaning S.Solver sheet.old) (held_at (sheet_meaning S.Solver sheet.old) ticket) }
{
    match sheet.release(ticket) {
        Ok(()) => (),
        Err(_) => unreachable(),
    }
}

// Puts a question, and answers how many literals it wrote.
fn put<S: Solver>(
    sheet: &mut Sheet<S>,
    question: Question,
    out: &mut [i8],
) -> Result<usize, SheetFault>
    ensures answer { result ≡ counted (answer_to question (length out.old) (sheet_meaning S.Solver sheet.old)) }
    ensures buffer { out.new ≡ written (answer_to question (length out.old) (sheet_meaning S.Solver sheet.old)) out.old }
    ensures meaning_kept { sheet_meaning S.Solver sheet.new ≡ sheet_meaning S.Solver sheet.old }
{
    match question {
        Question::Least => {
            sheet.least(out)?;
            Ok(sheet.solver.contacts())
        }
        Question::Why => sheet.why(out),
    }
}

// The question while the literals are held too: they are assumed one after the other, and at the end their tickets are given back. It answers how many literals were written.
pub fn ask_under<S: Solver>(
    sheet: &mut Sheet<S>,
    question: Question,
    literals: &[i8],
    out: &mut [i8],
) -> Result<usize, SheetFault>
    ensures answer { result ≡ counted (answer_under (answer_to question (length out.old)) (sheet_meaning S.Solver sheet.old) literals.now) }
    ensures buffer { out.new ≡ written (answer_under (answer_to question (length out.old)) (sheet_meaning S.Solver sheet.old) literals.now) out.old }
    ensures given_back { sheet_meaning S.Solver sheet.new ≡ after_trial (sheet_meaning S.Solver sheet.old) literals.now }
{
    match literals.split_first() {
        None => put(sheet, question, out),
        Some((first, rest)) => {
            let ticket = sheet.assume(*first)?;
            let answer = ask_under(sheet, question, rest, out);
            give_back(sheet, ticket);
            answer
        }
    }
}
