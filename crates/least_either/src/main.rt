// Reads a clause text from a file, takes its first N variables for contacts, and prints the least setting that it allows; or a gate text with N
// inputs, which begins with `a`. For timing, it answers REPEAT times before it prints.
#![tactic(auto)]

use aiger::Gate;
use clause_texts::LeastLines;
use faults::SheetFault;
use literals::LiteralSet;
use std::alloc::{AllocError, Global};
use std::fs;
use texts::is_gate_text;
use timed::{Task, repeated};

// A text has at most 4,096 rules.
const MOST_RULES: usize = 4_096;

// A text has at most 2,048 gates.
const MOST_GATES: usize = 2_048;

// A rule or a gate takes at least two bytes, so the store is half as long as the text, and at most as long as the longest text of its kind needs: a page of memory that is not
// touched is time saved.
fn least_of_either(
    heap: Global,
    times: u32,
    text: &[u8],
    n: usize,
    out: &mut [i8],
) -> Result<Result<(), SheetFault>, AllocError> {
    if is_gate_text(text) {
        let mut store = vec![in heap; Gate { left: 0, right: 0 }; MOST_GATES.min(text.len() / 2)]?;
        Ok(repeated(times, || {
            gate_texts::least_of_text(text, n, store.as_mut_slice(), out)
        }))
    } else {
        let mut store = vec![in heap; LiteralSet::empty(); MOST_RULES.min(text.len() / 2)]?;
        Ok(repeated(times, || {
            clause_texts::least_of_text(text, n, store.as_mut_slice(), out)
        }))
    }
}

fn main(rt: HostRuntime) -> anyhow::Result<()> {
    let task = Task::from_args(&rt, "least_either")?;
    let n = task.contacts;
    let text = fs::read(&rt, task.path.as_str())?;
    let mut literals = [0i8; 32];
    let answer = least_of_either(rt.alloc(), task.times, text.as_slice(), n, &mut literals)?;
    let lines = LeastLines {
        answer: answer.map(|()| &literals[0..n.min(32)]),
    };
    // The whole answer goes out in one write, since the program is there to be timed.
    let shown = format!(in rt.alloc(); "{lines}")?;
    println!(rt; "{shown}")?;
    Ok(())
}
