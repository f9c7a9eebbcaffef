// The pairs: the same interlock of four contacts as clause texts and as gate texts.
use crate::segments::answers;
use aiger::Gate;
use anyhow::anyhow;
use clauses::ClauseSolver;
use clauses::counts::VariableCounts;
use gates::GateSolver;
use literals::LiteralSet;
use solver::{ContactCount, Solver};
use std::alloc::Global;
use witnesses::WitnessCache;

// MAKE: not 1 and 2 together, and 3 wherever 1 is closed.
const MAKE_CLAUSES: &str = "p cnf 4 2
-1 -2 0
-1 3 0
";

// BREAK: 1 and 2 together, with 3 open.
const BREAK_CLAUSES: &str = "p cnf 4 3
1 0
2 0
-3 0
";

// The same as gates: gate 10 is 1 AND 2, gate 12 is 1 AND NOT 3, and the output is neither of them.
const MAKE_GATES: &str = "aag 7 4 0 1 3
2
4
6
8
14
10 4 2
12 7 2
14 13 11
";

const BREAK_GATES: &str = "aag 6 4 0 1 2
2
4
6
8
12
10 4 2
12 10 7
";

const CONTACTS: usize = 4;

// Whether each solver stands behind a witness cache.
#[derive(Clone, Copy)]
pub enum Behind {
    Nothing,
    Cache,
}

fn answers_behind<M: Solver + Drop, B: Solver + Drop>(
    heap: Global,
    behind: Behind,
    make: M,
    brk: B,
) -> anyhow::Result<String> {
    match behind {
        Behind::Nothing => answers(heap, make, brk),
        Behind::Cache => answers(heap, WitnessCache::new(make), WitnessCache::new(brk)),
    }
}

// What a pair over the clause texts answers.
pub fn clause_pair(heap: Global, behind: Behind) -> anyhow::Result<String> {
    let mut make_store = [LiteralSet::empty(); 3];
    let mut break_store = [LiteralSet::empty(); 3];
    let (Ok(make_size), Ok(break_size)) = (
        dimacs_load::load(MAKE_CLAUSES.as_bytes(), CONTACTS, &mut make_store),
        dimacs_load::load(BREAK_CLAUSES.as_bytes(), CONTACTS, &mut break_store),
    ) else {
        return Err(anyhow!("a text was refused"));
    };
    let (Ok(make_counts), Ok(break_counts)) = (
        VariableCounts::new(make_size.vars, CONTACTS),
        VariableCounts::new(break_size.vars, CONTACTS),
    ) else {
        return Err(anyhow!("a text was refused"));
    };
    let make = ClauseSolver::new(&make_store[0..make_size.count.min(3)], make_counts);
    let brk = ClauseSolver::new(&break_store[0..break_size.count.min(3)], break_counts);
    answers_behind(heap, behind, make, brk)
}

// What a pair over the gate texts answers.
pub fn gate_pair(heap: Global, behind: Behind) -> anyhow::Result<String> {
    let mut make_store = [Gate { left: 0, right: 0 }; 3];
    let mut break_store = [Gate { left: 0, right: 0 }; 3];
    let (Ok(make_network), Ok(break_network)) = (
        aiger_load::load(MAKE_GATES.as_bytes(), CONTACTS, &mut make_store),
        aiger_load::load(BREAK_GATES.as_bytes(), CONTACTS, &mut break_store),
    ) else {
        return Err(anyhow!("a text was refused"));
    };
    let Ok(count) = ContactCount::new(CONTACTS) else {
        return Err(anyhow!("a text was refused"));
    };
    let make = GateSolver::new(
        &make_store[0..make_network.count.min(3)],
        make_network.output,
        count,
    );
    let brk = GateSolver::new(
        &break_store[0..break_network.count.min(3)],
        break_network.output,
        count,
    );
    answers_behind(heap, behind, make, brk)
}
