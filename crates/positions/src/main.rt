// Runs worked positions, and prints of each what came and what is due.
#![tactic(auto)]

use clauses::counts::VariableCounts;
use solver::ContactCount;
use std::io;

mod crossed;
mod limits;
mod lines;
mod table;

fn main(rt: HostRuntime) -> io::Result<()> {
    table::run(&rt)?;
    // one contact and no inner variable
    let (Ok(counts), Ok(count)) = (VariableCounts::new(1, 1), ContactCount::new(1)) else {
        return println!(rt; "one contact is refused");
    };
    limits::run(&rt, counts, count)?;
    crossed::run(&rt, counts, count)
}
