// Questions to sheets over clause texts, each put to a clause solver and to one behind a cache of witnesses.
use super::lines::Written;
use clauses::ClauseSolver;
use clauses::counts::VariableCounts;
use dimacs_load::load;
use faults::{Refusal, SheetFault};
use literals::LiteralSet;
use sheets::Sheet;
use solver::Solver;
use std::io;
use trials::{Question, ask_under};
use witnesses::WitnessCache;

// LEAST, or WHY, while some literals are held, of a text whose first variables are the contacts.
struct Position {
    name: &'static str,
    text: &'static [u8],
    contacts: usize,
    question: Question,
    held: &'static [i8],
    due: &'static str,
}

// Contact 1 or 2 is closed, and 3 where 1 is.
const CHAIN: &[u8] = b"p cnf 3 2\n1 2 0\n-1 3 0\n";

const POSITIONS: [Position; 8] = [
    Position {
        name: "least",
        text: CHAIN,
        contacts: 3,
        question: Question::Least,
        held: &[],
        due: "-1 2 -3",
    },
    Position {
        name: "least, 1 held",
        text: CHAIN,
        contacts: 3,
        question: Question::Least,
        held: &[1],
        due: "1 -2 3",
    },
    Position {
        name: "least, 1 and -3 held",
        text: CHAIN,
        contacts: 3,
        question: Question::Least,
        held: &[1, -3],
        due: "refused 11 0",
    },
    Position {
        name: "why, 1 and -3 held",
        text: CHAIN,
        contacts: 3,
        question: Question::Why,
        held: &[1, -3],
        due: "1 -3",
    },
    // contact 1 alone is enough, but that choice has the number 4, and this one 3
    Position {
        name: "why, smallest number",
        text: b"p cnf 3 2\n-1 0\n-2 -3 0\n",
        contacts: 3,
        question: Question::Why,
        held: &[1, 2, 3],
        due: "2 3",
    },
    // where no setting is allowed at all, the empty choice is enough
    Position {
        name: "why, empty rule",
        text: b"p cnf 1 1\n0\n",
        contacts: 1,
        question: Question::Why,
        held: &[],
        due: "none",
    },
    Position {
        name: "why, 1 held twice",
        text: b"p cnf 1 1\n-1 0\n",
        contacts: 1,
        question: Question::Why,
        held: &[1, 1],
        due: "1",
    },
    Position {
        name: "least, inner variable",
        text: b"p cnf 2 2\n1 2 0\n-2 0\n",
        contacts: 1,
        question: Question::Least,
        held: &[],
        due: "1",
    },
];

fn ask<S: Solver + Drop>(
    rt: &impl Print,
    kind: &str,
    solver: S,
    position: &Position,
) -> io::Result<()> {
    let mut sheet = Sheet::open(solver, 1);
    let mut buffer = [0; 32];
    let answer = ask_under(&mut sheet, position.question, position.held, &mut buffer);
    let name = position.name;
    let written = Written {
        answer,
        buffer: &buffer,
    };
    let due = position.due;
    println!(rt; "{name}, {kind}:{written} (due {due})")
}

fn print_refused(rt: &impl Print, fault: SheetFault) -> io::Result<()> {
    let refusal = Refusal::from(fault).brief();
    print!(rt; " {refusal}")
}

fn run_position(rt: &impl Print, position: &Position) -> io::Result<()> {
    let mut store = [LiteralSet::empty(); 4];
    let size = match load(position.text, position.contacts, &mut store) {
        Ok(size) => size,
        Err(fault) => return print_refused(rt, fault),
    };
    let counts = match VariableCounts::new(size.vars, position.contacts) {
        Ok(counts) => counts,
        Err(fault) => return print_refused(rt, fault),
    };
    let count = size.count;
    let rules = &store[0..count];
    let below = ClauseSolver::new(rules, counts);
    ask(rt, "clauses", ClauseSolver::new(rules, counts), position)?;
    ask(rt, "cache", WitnessCache::new(below), position)
}

pub fn run(rt: &impl Print) -> io::Result<()> {
    for position in &POSITIONS {
        run_position(rt, position)?;
    }
    Ok(())
}
