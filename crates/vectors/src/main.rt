// Reads published clause and gate files, and prints what each comes to.
#![tactic(auto)]

use reports::{report_answered, report_clauses, report_gates};

mod clauses_solved;
mod reports;

// Clause files beside which a file with the answer stands.
const ANSWERED: [&str; 11] = [
    "empty", "prime4", "sat1", "sat2", "sat3", "sat4", "sat6", "unit0", "unit1", "unit2", "unit3",
];

// Clause files without one. Of these only `sub0` can be met.
const UNANSWERED: [&str; 14] = [
    "add4", "full1", "full2", "full3", "full4", "full5", "ph2", "ph3", "ph4", "sat0", "sat5",
    "sub0", "unit4", "unit5",
];

fn report_all(rt: &HostRuntime) -> anyhow::Result<()> {
    for name in ANSWERED.iter() {
        report_answered(rt, name)?;
    }
    for name in UNANSWERED.iter() {
        report_clauses(rt, name)?;
    }
    report_gates(rt, "and_", 2)?;
    report_gates(rt, "false", 0)?;
    report_gates(rt, "halfadder", 2)?;
    report_gates(rt, "inverter", 1)
}

fn main(rt: HostRuntime) -> anyhow::Result<()> {
    let done = report_all(&rt);
    done
}
