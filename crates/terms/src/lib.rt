// TERMS: the terms that cover every setting of one sheet and none of another, by the five steps that docs/CALLS.md lists.
#![tactic(auto)]

ghost use Rattle.std.specs.Prelude.{◌≡◌, [], length};
ghost use Rattle.tables.specs.Tables.{items};
ghost use Rattle.solver.specs.Meaning.{without_bars};
ghost use Rattle.solver.specs.Over.{meaning_of};
ghost use Rattle.sheets.specs.Sheets.{sheet_meaning};
ghost use Rattle.sheets.specs.Answers.{counted, written};
ghost use Rattle.terms.specs.Steps.{term_for, placed, turn, last_after, gathered, card_steps, terms_steps, listed_terms};
ghost use Rattle.terms.specs.Answers.{terms_answer, TermsLaw};

use faults::SheetFault;
use picking::pick;
use queries::reason;
use settings::Term;
use sheets::Sheet;
use sheets::questions::write_front;
use solver::Solver;
use striking::{bar_term, strike};
use tables::table::Table;

// Steps 2 and 3: the term for a setting's literals, which is WHY's choice of them, or the refusal of a setting that BREAK allows.
// There is a reason exactly where BREAK does not allow the setting, so one ask serves both steps.
fn term_for<B: Solver>(brk: &mut B, setting: &Table<i8, 32>) -> Result<Term, SheetFault>
    ensures answer { result ≡ term_for (meaning_of B.Solver brk.old) (items setting.now) }
    ensures meaning_kept { meaning_of B.Solver brk.new ≡ meaning_of B.Solver brk.old }
{
    let n = brk.contacts();
    match reason(brk, setting)? {
        None => Err(SheetFault::BothAllow(Term::from_literals(n, setting.as_slice()).closed)),
        Some(choice) => Ok(Term::from_literals(n, choice.as_slice())),
    }
}

// Places a term last and bars MAKE with it, or refuses where 64 terms stand.
fn place_term<M: Solver>(
    make: &mut M,
    terms: &mut Table<Term, 64>,
    term: Term,
) -> Result<bool, SheetFault>
    ensures answer { result ≡ (placed (meaning_of M.Solver make.old) (items terms.old) term).answer }
    ensures placed { items terms.new ≡ (placed (meaning_of M.Solver make.old) (items terms.old) term).terms }
    ensures barred { meaning_of M.Solver make.new ≡ (placed (meaning_of M.Solver make.old) (items terms.old) term).make }
{
    if terms.len() >= 64 {
        return Err(SheetFault::TooManyTerms);
    }
    let _ = terms.push(term);
    bar_term(make, term);
    Ok(true)
}

// Steps 1 to 3 once: whether a term was made. `last` has the literals of the setting that the last term was made for; the next one is later.
fn next_term<M: Solver, B: Solver>(
    make: &mut M,
    brk: &mut B,
    last: &mut Table<i8, 32>,
    terms: &mut Table<Term, 64>,
) -> Result<bool, SheetFault>
    ensures answer { result ≡ (turn (meaning_of M.Solver make.old) (meaning_of B.Solver brk.old) (items last.old) (items terms.old)).answer }
    ensures placed { items terms.new ≡ (turn (meaning_of M.Solver make.old) (meaning_of B.Solver brk.old) (items last.old) (items terms.old)).terms }
    ensures barred { meaning_of M.Solver make.new ≡ (turn (meaning_of M.Solver make.old) (meaning_of B.Solver brk.old) (items last.old) (items terms.old)).make }
    ensures last { items last.new ≡ last_after (meaning_of M.Solver make.old) (meaning_of B.Solver brk.old) (items last.old) }
    ensures break_kept { meaning_of B.Solver brk.new ≡ meaning_of B.Solver brk.old }
{
    match pick(make, last) {
        None => Ok(false),
        Some(setting) => {
            let term = term_for(brk, &setting)?;
            *last = setting;
            place_term(make, terms, term)
        }
    }
}

// Steps 1 to 3 over and over, from no term on; MAKE is left with a bar for each term.
fn gather<M: Solver, B: Solver>(make: &mut M, brk: &mut B) -> Result<Table<Term, 64>, SheetFault>
    requires same_contacts { M.Solver.size make.old ≡ B.Solver.size brk.old }
    requires no_bars { M.Solver.bars make.old ≡ [] }
    ensures answer { listed_terms result ≡ gathered (without_bars (meaning_of M.Solver make.old)) (meaning_of B.Solver brk.old) }
    ensures bars_apart { without_bars (meaning_of M.Solver make.new) ≡ without_bars (meaning_of M.Solver make.old) }
    ensures break_kept { meaning_of B.Solver brk.new ≡ meaning_of B.Solver brk.old }
{
    let mut last = Table::new(0);
    let mut terms = Table::new(Term {
        closed: 0,
        opened: 0,
    });
    while next_term(make, brk, &mut last, &mut terms)? {}
    Ok(terms)
}

// The terms of two solvers, made and struck; MAKE is left with no bar.
fn card<M: Solver, B: Solver>(make: &mut M, brk: &mut B) -> Result<Table<Term, 64>, SheetFault>
    requires same_contacts { M.Solver.size make.old ≡ B.Solver.size brk.old }
    requires no_bars { M.Solver.bars make.old ≡ [] }
    ensures answer { listed_terms result ≡ card_steps (without_bars (meaning_of M.Solver make.old)) (meaning_of B.Solver brk.old) }
    ensures bars_emptied { meaning_of M.Solver make.new ≡ without_bars (meaning_of M.Solver make.old) }
    ensures break_kept { meaning_of B.Solver brk.new ≡ meaning_of B.Solver brk.old }
{
    let gathered = gather(make, brk);
    make.clear();
    let terms = gathered?;
    Ok(strike(make, &terms))
}

// TERMS by its steps: the sheets and the buffer are asked for first.
fn write_terms<M: Solver, B: Solver>(
    make: &mut Sheet<M>,
    brk: &mut Sheet<B>,
    out: &mut [Term],
) -> Result<usize, SheetFault>
    ensures answer { result ≡ counted (terms_steps (meaning_of M.Solver make.old.solver) (meaning_of B.Solver brk.old.solver) (length out.old)) }
    ensures buffer { out.new ≡ written (terms_steps (meaning_of M.Solver make.old.solver) (meaning_of B.Solver brk.old.solver) (length out.old)) out.old }
    ensures make_kept { sheet_meaning M.Solver make.new ≡ sheet_meaning M.Solver make.old }
    ensures break_kept { sheet_meaning B.Solver brk.new ≡ sheet_meaning B.Solver brk.old }
{
    if make.solver.contacts() != brk.solver.contacts() {
        return Err(SheetFault::OtherContacts);
    }
    if out.len() < 64 {
        return Err(SheetFault::ShortBuffer);
    }
    let terms = card(&mut make.solver, &mut brk.solver)?;
    write_front(out, terms.as_slice());
    Ok(terms.len())
}

// TERMS: makes terms until they cover every setting that MAKE allows, none of which covers a setting that BREAK allows, strikes those that the others make needless,
// writes the records of the rest in the order made at the buffer's front, and answers their count.
pub fn terms<M: Solver, B: Solver>(
    make: &mut Sheet<M>,
    brk: &mut Sheet<B>,
    out: &mut [Term],
) -> Result<usize, SheetFault>
    ensures answer { result ≡ counted (terms_answer (sheet_meaning M.Solver make.old) (sheet_meaning B.Solver brk.old) (length out.old)) }
    ensures buffer { out.new ≡ written (terms_answer (sheet_meaning M.Solver make.old) (sheet_meaning B.Solver brk.old) (length out.old)) out.old }
    ensures card { TermsLaw (sheet_meaning M.Solver make.old) (sheet_meaning B.Solver brk.old) out.new result }
    ensures make_kept { sheet_meaning M.Solver make.new ≡ sheet_meaning M.Solver make.old }
    ensures break_kept { sheet_meaning B.Solver brk.new ≡ sheet_meaning B.Solver brk.old }
{
    write_terms(make, brk, out)
}
