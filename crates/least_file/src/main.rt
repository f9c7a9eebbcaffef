// Reads a clause text from a file, takes its first N variables for contacts, and prints the least setting that it allows. For timing, it answers REPEAT times before it prints.
#![tactic(auto)]

use clause_texts::{LeastLines, least_of_text};
use literals::LiteralSet;
use std::fs;
use timed::{Task, repeated};

// A text has at most 4,096 rules.
const MOST_RULES: usize = 4_096;

fn main(rt: HostRuntime) -> anyhow::Result<()> {
    let task = Task::from_args(&rt, "least_file")?;
    let n = task.contacts;
    let text = fs::read(&rt, task.path.as_str())?;
    let mut store = vec![in rt.alloc(); LiteralSet::empty(); MOST_RULES]?;
    let mut literals = [0i8; 32];
    let answer = repeated(task.times, || {
        least_of_text(text.as_slice(), n, store.as_mut_slice(), &mut literals)
    });
    let lines = LeastLines {
        answer: answer.map(|()| &literals[0..n.min(32)]),
    };
    // The whole answer goes out in one write, since the program is there to be timed.
    let shown = format!(in rt.alloc(); "{lines}")?;
    println!(rt; "{shown}")?;
    Ok(())
}
