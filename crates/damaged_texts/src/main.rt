// Loads each text of the tables, and prints the rows that come out otherwise than the two formats ask for.
#![tactic(auto)]

use gate_rows::{GATE_ROWS, HEADING_ROWS, INPUT_ROWS};
use heading_rows::{COMMENT_ROWS, COUNT_ROWS, FORMAT_ROWS, VARIABLE_ROWS};
use loads::{load_clauses, load_gates};
use long_rows::{LONG_CLAUSE_ROWS, LONG_GATE_ROWS};
use rule_rows::{CLOSING_ROWS, LITERAL_ROWS, ROOM_ROWS};
use tally::Tally;

mod gate_rows;
mod heading_rows;
mod loads;
mod long_rows;
mod outcome;
mod rows;
mod rule_rows;
mod tally;

fn run_all(rt: &HostRuntime, tally: &mut Tally) -> anyhow::Result<()> {
    tally.run(rt, &load_clauses, &FORMAT_ROWS)?;
    tally.run(rt, &load_clauses, &VARIABLE_ROWS)?;
    tally.run(rt, &load_clauses, &COUNT_ROWS)?;
    tally.run(rt, &load_clauses, &COMMENT_ROWS)?;
    tally.run(rt, &load_clauses, &LITERAL_ROWS)?;
    tally.run(rt, &load_clauses, &CLOSING_ROWS)?;
    tally.run(rt, &load_clauses, &ROOM_ROWS)?;
    tally.run_long(rt, &load_clauses, &LONG_CLAUSE_ROWS)?;
    tally.run(rt, &load_gates, &HEADING_ROWS)?;
    tally.run(rt, &load_gates, &INPUT_ROWS)?;
    tally.run(rt, &load_gates, &GATE_ROWS)?;
    tally.run_long(rt, &load_gates, &LONG_GATE_ROWS)
}

fn main(rt: HostRuntime) -> anyhow::Result<()> {
    let mut tally = Tally::new();
    run_all(&rt, &mut tally)?;
    let rows = tally.rows;
    let differ = tally.differ;
    println!(rt; "{rows} rows, {differ} differ")?;
    Ok(())
}
