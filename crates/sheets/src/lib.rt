// Sheets: a solver with held assumptions, and the calls on them.
#![tactic(auto)]

ghost use Rattle.std.specs.Prelude.{◌≡◌, [], map, None};
ghost use Rattle.std.proofs.Props.{props};
ghost use Rattle.literals.specs.Literals.{first_unnamed};
ghost use Rattle.tables.specs.Tables.{items};

use faults::SheetFault;
use solver::Solver;
use tables::table::Table;

mod calls;
pub mod questions;

// A held assumption: a literal that the answers have to agree with, and the issue number of its ticket.
#[derive(Clone, Copy)]
pub struct Held {
    literal: i8,
    number: u16,
}

// Given out for an assumption, and owed to the sheet that holds it: a ticket ends only where RELEASE accepts it.
pub struct Ticket {
    label: u16,
    number: u16,
}

// A sheet owns one solver of any kind, and allows the settings that stand in it. Its label tells its tickets from those of other sheets, and `count` is how many it has issued.
// The solver is open to calls on two sheets at once, which have to leave the sheet in order.
#[derive(Drop)]
pub struct Sheet<S: Solver> {
    pub solver: S,
    label: u16,
    held: Table<Held, 32>,
    count: u16,
    pub ghost no_bars: { S.Solver.bars solver ≡ [] } by { Prim.hlevel props },
    pub ghost named: { first_unnamed (S.Solver.size solver) (map (λ h. h.literal) (items held)) ≡ None } by { Prim.hlevel props },
}

// A refused RELEASE hands the ticket back.
pub struct Unreleased {
    pub fault: SheetFault,
    pub ticket: Ticket,
}
