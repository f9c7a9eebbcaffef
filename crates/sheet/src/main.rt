// Reads a clause text from standard input, takes each of its variables for a contact, and prints the least setting that it allows.
#![tactic(auto)]

use clause_texts::{LeastLines, least_of_whole_text};
use literals::LiteralSet;
use std::io::Read;

// A text has at most 60,000 bytes and 4,096 rules.
const LONGEST_TEXT: u64 = 60_000;

const MOST_RULES: usize = 4_096;

fn main(rt: HostRuntime) -> anyhow::Result<()> {
    // One byte more than the longest text is enough to tell that it is too long.
    let mut text = Vec::new(rt.alloc());
    let _ = rt.stdin().take(LONGEST_TEXT + 1).read_to_end(&mut text)?;
    let mut store = vec![in rt.alloc(); LiteralSet::empty(); MOST_RULES]?;
    let mut literals = [0i8; 32];
    let answer = least_of_whole_text(text.as_slice(), store.as_mut_slice(), &mut literals);
    let lines = LeastLines {
        answer: answer.map(|n| &literals[0..n.min(32)]),
    };
    println!(rt; "{lines}")?;
    Ok(())
}
