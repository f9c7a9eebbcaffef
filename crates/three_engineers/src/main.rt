// Three engineers work on one pair of sheets, one after the other, each with the tickets that the others left. The same requests are put to four pairs:
// over clause texts and over gate texts that allow the same settings, with and without a witness cache. What the first pair answers is printed, and whether the others gave the same.
#![tactic(auto)]

use pairs::{Behind, clause_pair, gate_pair};

mod pairs;
mod segments;

fn print_same(rt: &HostRuntime, name: &str, first: &str, other: &str) -> anyhow::Result<()> {
    let verdict = if first == other {
        "the same"
    } else {
        "not the same"
    };
    println!(rt; "{name}: {verdict}")?;
    Ok(())
}

fn main(rt: HostRuntime) -> anyhow::Result<()> {
    let first = clause_pair(rt.alloc(), Behind::Nothing)?;
    print!(rt; "{first}")?;
    print_same(
        &rt,
        "clause texts, with a cache",
        first.as_str(),
        clause_pair(rt.alloc(), Behind::Cache)?.as_str(),
    )?;
    print_same(
        &rt,
        "gate texts",
        first.as_str(),
        gate_pair(rt.alloc(), Behind::Nothing)?.as_str(),
    )?;
    print_same(
        &rt,
        "gate texts, with a cache",
        first.as_str(),
        gate_pair(rt.alloc(), Behind::Cache)?.as_str(),
    )?;
    Ok(())
}
