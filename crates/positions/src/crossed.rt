// Tickets that are given to another sheet than the one that issued them.
ghost use Rattle.std.specs.Prelude.{◌≡◌};
ghost use Rattle.sheets.specs.Sheets.{sheet_meaning};

use super::lines::Done;
use clauses::ClauseSolver;
use clauses::counts::VariableCounts;
use enumerated::ListSolver;
use faults::SheetFault;
use settings::Setting;
use sheets::{Sheet, Unreleased};
use solver::{ContactCount, Solver};
use std::io;
use trials::give_back;

// Gives a ticket to the other sheet, and where that hands it back, to its own.
fn misdirect<S: Solver, T: Solver>(
    sheet: &mut Sheet<S>,
    other: &mut Sheet<T>,
) -> Result<(), SheetFault> {
    let ticket = sheet.assume(1)?;
    match other.release(ticket) {
        Ok(()) => Ok(()),
        Err(refused) => {
            let Unreleased { fault, ticket } = refused;
            give_back(sheet, ticket);
            Err(fault)
        }
    }
}

// Two sheets of one label that have issued as many tickets: each takes the next ticket of the other.
fn exchange<S: Solver, T: Solver>(
    sheet: &mut Sheet<S>,
    other: &mut Sheet<T>,
) -> Result<(), SheetFault>
    requires same_label { (sheet_meaning S.Solver sheet.old).label ≡ (sheet_meaning T.Solver other.old).label }
    requires same_count { (sheet_meaning S.Solver sheet.old).count ≡ (sheet_meaning T.Solver other.old).count }
{
    let own = sheet.assume(1)?;
    match other.assume(1) {
        Err(fault) => {
            give_back(sheet, own);
            Err(fault)
        }
        Ok(theirs) => {
            give_back(other, own);
            give_back(sheet, theirs);
            Ok(())
        }
    }
}

fn ask_misdirected<S: Solver + Drop, T: Solver + Drop>(
    rt: &impl Print,
    solver: S,
    other: T,
) -> io::Result<()> {
    let mut sheet = Sheet::open(solver, 1);
    let mut other = Sheet::open(other, 2);
    let done = Done {
        answer: misdirect(&mut sheet, &mut other),
    };
    println!(rt; "ticket to a sheet of another label: {done} (due refused 9 0)")
}

fn ask_exchanged<S: Solver + Drop, T: Solver + Drop>(
    rt: &impl Print,
    solver: S,
    other: T,
) -> io::Result<()> {
    let mut sheet = Sheet::open(solver, 1);
    let mut other = Sheet::open(other, 1);
    let done = Done {
        answer: exchange(&mut sheet, &mut other),
    };
    println!(rt; "tickets to sheets of the same label: {done} (due accepted)")
}

pub fn run(rt: &impl Print, counts: VariableCounts, count: ContactCount) -> io::Result<()> {
    let all = [Setting { closed: 0 }, Setting { closed: 1 }];
    ask_misdirected(
        rt,
        ClauseSolver::new(&[], counts),
        ListSolver::new(&all, count),
    )?;
    ask_exchanged(
        rt,
        ClauseSolver::new(&[], counts),
        ListSolver::new(&all, count),
    )
}
