// Puts worked positions of TERMS to sheets over each solver, and prints what came and what is due.
#![tactic(auto)]

use std::io;

mod parity;
mod solvers;
mod table;

fn main(rt: HostRuntime) -> io::Result<()> {
    table::run(&rt)?;
    parity::run(&rt)
}
