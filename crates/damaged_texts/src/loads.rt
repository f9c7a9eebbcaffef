// Loads texts into stores of marked records, which tell whether a record was written.
use crate::outcome::Outcome;
use aiger::Gate;
use faults::{Refusal, SheetFault};
use literals::LiteralSet;
use std::alloc::{AllocError, Global};

// No text of the tables gives such a rule or gate.
const MARKED_RULE: LiteralSet = LiteralSet {
    closed: u64::MAX,
    opened: u64::MAX,
};

const MARKED_GATE: Gate = Gate {
    left: u16::MAX,
    right: u16::MAX,
};

// What a text that was taken has: its numbers of variables and rules, or of inputs and gates.
#[derive(Clone, Copy)]
struct Counts {
    width: usize,
    records: usize,
}

// What the loading came to, if the records that are not the text's are as before.
fn outcome_of<T: PartialEq>(store: &[T], mark: &T, answer: Result<Counts, SheetFault>) -> Outcome {
    let used = match answer {
        Ok(counts) => counts.records.min(store.len()),
        Err(_) => 0,
    };
    if !store[used..].iter().all(|record| record == mark) {
        return Outcome::Touched;
    }
    match answer {
        Ok(counts) => Outcome::Accepted(counts.width, counts.records),
        Err(fault) => {
            let refusal = Refusal::from(fault);
            Outcome::Refused(refusal.number, refusal.place, refusal.layer)
        }
    }
}

// Loads a clause text for n contacts into a store of that many records.
pub fn load_clauses(
    heap: Global,
    text: &[u8],
    n: usize,
    records: usize,
) -> Result<Outcome, AllocError> {
    let mut store = vec![in heap; MARKED_RULE; records]?;
    let answer = dimacs_load::load(text, n, store.as_mut_slice()).map(|size| Counts {
        width: size.vars,
        records: size.count,
    });
    Ok(outcome_of(store.as_slice(), &MARKED_RULE, answer))
}

// The same for a gate text.
pub fn load_gates(
    heap: Global,
    text: &[u8],
    n: usize,
    records: usize,
) -> Result<Outcome, AllocError> {
    let mut store = vec![in heap; MARKED_GATE; records]?;
    let answer = aiger_load::load(text, n, store.as_mut_slice()).map(|network| Counts {
        width: network.inputs,
        records: network.count,
    });
    Ok(outcome_of(store.as_slice(), &MARKED_GATE, answer))
}
