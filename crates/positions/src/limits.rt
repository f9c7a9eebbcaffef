// The limits of sheets with one contact and no rules at first.
use super::lines::{Done, Written};
use clauses::ClauseSolver;
use clauses::counts::VariableCounts;
use enumerated::ListSolver;
use faults::SheetFault;
use settings::Setting;
use sheets::Sheet;
use solver::{ContactCount, Solver};
use std::io;
use trials::{Question, ask_under};
use witnesses::WitnessCache;

// Adds 64 rules.
fn add_rules<S: Solver>(sheet: &mut Sheet<S>) -> Result<(), SheetFault> {
    for _ in 0..64 {
        sheet.rule(&[1])?;
    }
    Ok(())
}

// Has 65,535 tickets issued, each given back before the next.
fn issue_tickets<S: Solver>(sheet: &mut Sheet<S>) -> Result<(), SheetFault> {
    for _ in 0..65_535 {
        let _ = ask_under(sheet, Question::Least, &[1], &mut [0; 1])?;
    }
    Ok(())
}

fn print_rule<S: Solver>(
    rt: &impl Print,
    name: &str,
    sheet: &mut Sheet<S>,
    literals: &[i8],
    due: &str,
) -> io::Result<()> {
    let done = Done {
        answer: sheet.rule(literals),
    };
    println!(rt; "{name}: {done} (due {due})")
}

fn print_least<S: Solver>(
    rt: &impl Print,
    name: &str,
    sheet: &mut Sheet<S>,
    held: &[i8],
    due: &str,
) -> io::Result<()> {
    let mut buffer = [0; 1];
    let answer = ask_under(sheet, Question::Least, held, &mut buffer);
    let written = Written {
        answer,
        buffer: &buffer,
    };
    println!(rt; "{name}:{written} (due {due})")
}

// Literals that name no contact, and as many held as may be, and one more.
fn ask_held<S: Solver + Drop>(rt: &impl Print, solver: S) -> io::Result<()> {
    let mut sheet = Sheet::open(solver, 1);
    print_rule(rt, "rule of -128", &mut sheet, &[-128], "refused 5 0")?;
    print_rule(rt, "rule of 1 and 2", &mut sheet, &[1, 2], "refused 5 1")?;
    print_least(rt, "-128 held", &mut sheet, &[-128], "refused 5 0")?;
    print_least(rt, "32 held", &mut sheet, &[1; 32], "1")?;
    print_least(rt, "33 held", &mut sheet, &[1; 33], "refused 7 0")
}

// As many rules as may be added, and one more.
fn ask_rules<S: Solver + Drop>(rt: &impl Print, solver: S) -> io::Result<()> {
    let mut sheet = Sheet::open(solver, 1);
    let done = Done {
        answer: add_rules(&mut sheet),
    };
    println!(rt; "64 rules: {done} (due accepted)")?;
    print_rule(rt, "rule 65", &mut sheet, &[1], "refused 6 0")
}

// As many tickets as may be issued, and one more.
fn ask_tickets<S: Solver + Drop>(rt: &impl Print, solver: S) -> io::Result<()> {
    let mut sheet = Sheet::open(solver, 1);
    let done = Done {
        answer: issue_tickets(&mut sheet),
    };
    println!(rt; "65535 tickets: {done} (due accepted)")?;
    print_least(rt, "ticket 65536", &mut sheet, &[1], "refused 8 0")
}

pub fn run(rt: &impl Print, counts: VariableCounts, count: ContactCount) -> io::Result<()> {
    let all = [Setting { closed: 0 }, Setting { closed: 1 }];
    ask_held(rt, ClauseSolver::new(&[], counts))?;
    ask_rules(rt, WitnessCache::new(ClauseSolver::new(&[], counts)))?;
    ask_tickets(rt, ListSolver::new(&all, count))
}
