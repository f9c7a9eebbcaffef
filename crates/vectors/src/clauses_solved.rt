// What a clause text comes to: its least setting, and whether its rules read back as the same once they are written.
use clauses::ClauseSolver;
use clauses::counts::VariableCounts;
use dimacs::LoadedRules;
use dimacs_load::{load, measure};
use dimacs_write::write;
use faults::SheetFault;
use literals::LiteralSet;
use sheets::Sheet;
use std::alloc::{AllocError, Global};

// A clause text has at most 64 variables, of which up to 32 may be contacts, at most 4,096 rules and at most 60,000 bytes.
const MOST_CONTACTS: usize = 32;

const MOST_RULES: usize = 4_096;

const LONGEST_TEXT: usize = 60_000;

// What a clause text comes to: the literals of its least setting, none where it allows none, or the refusal; and whether its rules read back.
#[derive(Drop)]
pub struct Solved {
    pub least: Result<Option<Vec<i8>>, SheetFault>,
    pub reads_back: bool,
}

// As many of the variables as may be are contacts.
fn contacts_of(vars: usize) -> usize {
    vars.min(MOST_CONTACTS)
}

// Loads a text into a store for its rules.
fn load_rules<'a>(text: &[u8], store: &'a mut [LiteralSet]) -> Result<LoadedRules<'a>, SheetFault> {
    let n = contacts_of(measure(text)?.vars);
    let size = load(text, n, store)?;
    Ok(size.rules_in(store))
}

// Writes the literals of the least setting that the rules allow.
fn least(loaded: LoadedRules, out: &mut [i8]) -> Result<(), SheetFault> {
    let counts = VariableCounts::new(loaded.vars, contacts_of(loaded.vars))?;
    let mut sheet = Sheet::open(ClauseSolver::new(loaded.rules, counts), 1);
    sheet.least(out)
}

// The least setting's literals in a buffer of their own, none where no setting is allowed.
fn least_of(
    heap: Global,
    loaded: LoadedRules,
) -> Result<Result<Option<Vec<i8>>, SheetFault>, AllocError> {
    let mut literals = vec![in heap; 0i8; contacts_of(loaded.vars)]?;
    match least(loaded, literals.as_mut_slice()) {
        Ok(()) => Ok(Ok(Some(literals))),
        Err(SheetFault::NoneAllowed) => Ok(Ok(None)),
        Err(fault) => Ok(Err(fault)),
    }
}

// Whether the text loads as the same rules over as many variables.
fn holds_again(text: &[u8], loaded: LoadedRules, store: &mut [LiteralSet]) -> bool {
    load_rules(text, store).is_ok_and(|again| again == loaded)
}

// Whether the rules, once they are written, read back as the same rules over as many variables.
fn read_back(heap: Global, loaded: LoadedRules) -> Result<bool, AllocError> {
    let mut text = vec![in heap; 0u8; LONGEST_TEXT]?;
    let mut store = vec![in heap; LiteralSet::empty(); loaded.rules.len()]?;
    let Ok(length) = write(loaded, text.as_mut_slice()) else {
        return Ok(false);
    };
    let used = length.min(text.len());
    Ok(holds_again(&text.as_slice()[0..used], loaded, store.as_mut_slice()))
}

// Solves a text, and writes its rules and reads them again.
pub fn solve(heap: Global, text: &[u8]) -> Result<Solved, AllocError> {
    let mut store = vec![in heap; LiteralSet::empty(); MOST_RULES]?;
    match load_rules(text, store.as_mut_slice()) {
        Ok(loaded) => Ok(Solved {
            least: least_of(heap, loaded)?,
            reads_back: read_back(heap, loaded)?,
        }),
        Err(fault) => Ok(Solved {
            least: Err(fault),
            reads_back: false,
        }),
    }
}
