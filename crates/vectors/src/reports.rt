// Prints a line for each file.
use crate::clauses_solved::{Solved, solve};
use aiger::Gate;
use aiger_load::load;
use faults::{Refusal, SheetFault};
use literals::Spaced;
use std::alloc::{AllocError, Global};
use std::{fs, io};

// A gate text has at most 2,048 gates.
const MOST_GATES: usize = 2_048;

fn print_refusal(rt: &impl Print, fault: SheetFault) -> io::Result<()> {
    let refusal = Refusal::from(fault).brief();
    print!(rt; " {refusal}")
}

fn print_solved(rt: &impl Print, solved: &Solved) -> io::Result<()> {
    match &solved.least {
        Ok(Some(literals)) => {
            let literals = Spaced {
                literals: literals.as_slice(),
            };
            print!(rt; " satisfiable{literals}")?
        }
        Ok(None) => print!(rt; " unsatisfiable")?,
        Err(fault) => print_refusal(rt, *fault)?,
    }
    if solved.reads_back {
        print!(rt; ", same")?;
    }
    Ok(())
}

// The text without the lines that begin with one of those bytes.
fn without_lines(heap: Global, text: &[u8], marks: &[u8]) -> Result<Vec<u8>, AllocError> {
    let mut rest = Vec::new(heap);
    for line in text.split_inclusive(|byte| *byte == b'\n') {
        if !line.first().is_some_and(|mark| marks.contains(mark)) {
            rest.extend_from_slice(line)?;
        }
    }
    Ok(rest)
}

// What the text comes to, and for one that is refused, what it comes to without its comments.
fn print_clauses(rt: &HostRuntime, text: &[u8]) -> anyhow::Result<()> {
    let solved = solve(rt.alloc(), text)?;
    print_solved(rt, &solved)?;
    if solved.least.is_err() {
        let rest = without_lines(rt.alloc(), text, b"c")?;
        if rest.len() < text.len() {
            print!(rt; ", without comments")?;
            print_solved(rt, &solve(rt.alloc(), rest.as_slice())?)?;
        }
    }
    Ok(())
}

fn published(text: &[u8]) -> &'static str {
    if text.starts_with(b"s SATISFIABLE\n") {
        "satisfiable"
    } else if text.starts_with(b"s UNSATISFIABLE\n") {
        "unsatisfiable"
    } else {
        "nothing"
    }
}

// A clause file whose answer is not published.
pub fn report_clauses(rt: &HostRuntime, name: &str) -> anyhow::Result<()> {
    let path = format!(in rt.alloc(); "cnf/{name}.cnf")?;
    let text = fs::read(rt, path.as_str())?;
    print!(rt; "{name}")?;
    print_clauses(rt, text.as_slice())?;
    println!(rt; "")?;
    Ok(())
}

// A clause file beside which its answer stands.
pub fn report_answered(rt: &HostRuntime, name: &str) -> anyhow::Result<()> {
    let path = format!(in rt.alloc(); "cnf/{name}.sol")?;
    let answer = fs::read(rt, path.as_str())?;
    let said = published(answer.as_slice());
    print!(rt; "published {said}: ")?;
    report_clauses(rt, name)
}

fn print_gates(rt: &HostRuntime, text: &[u8], n: usize) -> anyhow::Result<()> {
    let no_gate = Gate { left: 0, right: 0 };
    let mut store = vec![in rt.alloc(); no_gate; MOST_GATES]?;
    match load(text, n, store.as_mut_slice()) {
        Ok(network) => {
            let inputs = network.inputs;
            let count = network.count;
            let output = network.output;
            print!(rt; " inputs {inputs} gates {count} output {output}")?;
        }
        Err(fault) => print_refusal(rt, fault)?,
    }
    Ok(())
}

// A gate file of n inputs, as it is, and without the lines that give names to its inputs and outputs.
pub fn report_gates(rt: &HostRuntime, name: &str, n: usize) -> anyhow::Result<()> {
    let path = format!(in rt.alloc(); "aag/{name}.aag")?;
    let text = fs::read(rt, path.as_str())?;
    let rest = without_lines(rt.alloc(), text.as_slice(), b"io")?;
    print!(rt; "{name}")?;
    print_gates(rt, text.as_slice(), n)?;
    print!(rt; ", without names")?;
    print_gates(rt, rest.as_slice(), n)?;
    println!(rt; "")?;
    Ok(())
}
