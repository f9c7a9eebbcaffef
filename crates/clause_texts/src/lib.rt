// Clause texts from their bytes to their least setting.
#![tactic(auto)]

ghost use Rattle.std.specs.Prelude.{◌≡◌, length};
ghost use Rattle.dimacs.specs.Cnf.{read_cnf};
ghost use Rattle.clause_texts.specs.Allowed.{TextLaw};
ghost use Rattle.clause_texts.specs.Answer.{text_least, sheet_least, whole_least, variables_of, told_size};
ghost use Rattle.sheets.specs.Answers.{told, written};

use clauses::ClauseSolver;
use clauses::counts::VariableCounts;
use dimacs::LoadedRules;
use dimacs_load::{load, measure};
use faults::SheetFault;
use literals::LiteralSet;
use sheets::Sheet;
use witnesses::WitnessCache;

mod shown;

pub use shown::LeastLines;

// Writes the literals of the earliest setting of n contacts that some values of the other variables meet every rule with.
fn least_of_rules(loaded: LoadedRules, n: usize, out: &mut [i8]) -> Result<(), SheetFault>
    ensures answer { result ≡ told (sheet_least loaded.entry.vars n loaded.entry.rules.now (length out.old)) }
    ensures buffer { out.new ≡ written (sheet_least loaded.entry.vars n loaded.entry.rules.now (length out.old)) out.old }
{
    let counts = VariableCounts::new(loaded.vars, n)?;
    let solver = ClauseSolver::new(loaded.rules, counts);
    let cache = WitnessCache::new(solver);
    let mut sheet = Sheet::open(cache, 1);
    sheet.least(out)
}

// Loads the text into the store, and writes the literals of the earliest setting of its first n variables that it allows.
pub fn least_of_text(
    text: &[u8],
    n: usize,
    store: &mut [LiteralSet],
    out: &mut [i8],
) -> Result<(), SheetFault>
    ensures answer { result ≡ told (text_least n (length store.old) (length out.old) (read_cnf text.now)) }
    ensures buffer { out.new ≡ written (text_least n (length store.old) (length out.old) (read_cnf text.now)) out.old }
{
    let size = load(text, n, store)?;
    least_of_rules(size.rules_in(store), n, out)
}

// The same with each variable of the text as a contact; answers how many there are.
pub fn least_of_whole_text(
    text: &[u8],
    store: &mut [LiteralSet],
    out: &mut [i8],
) -> Result<usize, SheetFault>
    ensures answer { result ≡ told_size (variables_of (read_cnf text.now)) (whole_least (length store.old) (length out.old) (read_cnf text.now)) }
    ensures buffer { out.new ≡ written (whole_least (length store.old) (length out.old) (read_cnf text.now)) out.old }
{
    let n = measure(text)?.vars;
    least_of_text(text, n, store, out)?;
    Ok(n)
}

// The loaded rules allow just the settings that the text allows.
pub fn text_law()
    ensures rules_allow_what_text_allows { TextLaw }
{}
