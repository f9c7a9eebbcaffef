// The gate solver: a setting is in its base set when the network's output is 1 with the contacts as inputs. It works on the gate records themselves.
#![tactic(auto)]

ghost use Rattle.std.specs.Prelude.{◌≡◌, ◌≤◌, true, None};
ghost use Rattle.literals.specs.Literals.{first_unnamed};
ghost use Rattle.settings.specs.Readings.{reading};
ghost use Rattle.search.specs.Search.{Says};
ghost use Rattle.search.specs.Assignments.{undecided};
ghost use Rattle.rules.specs.Rules.{Choice};
ghost use Rattle.solver.specs.Meaning.{Answers};
ghost use Rattle.networks.specs.Networks.{first_gates};
ghost use Rattle.gates.specs.Gates.{loaded_meaning, gate_contacts, gate_base, gate_added, gate_bars, gate_meaning, gate_good, gate_scan, differ, few_variables};

use additions::Additions;
use aiger::Gate;
use branching::choose;
use faults::SolverFault;
use implications::imply;
use lanes::{count_undecided, try_all};
use literals::{LiteralSet, find_unnamed};
use networks::Circuit;
use rules::{Finding, find_forced_in_both, first_undecided};
use search::{Assignment, Found, Look, find};
use settings::Setting;
use solver::{ContactCount, Solver};

// The settings of up to six undecided inputs are tried at once.
const AT_ONCE: u8 = 6;

// Those of so many are all tried, since that takes less time than looking ahead.
const TRIED_ALL: u8 = 10;

mod network_solver;

pub use network_solver::GateSolver;

impl<'a> GateSolver<'a> {
    // A solver over lent records, with no added rule and no bar. A side of a gate that names the gate itself or a later one reads as false, as does an output beyond the gates.
    pub fn new(gates: &'a [Gate], output: u16, count: ContactCount) -> Self
        ensures meaning { gate_meaning result ≡ loaded_meaning count.contacts (first_gates gates.now) output }
    {
        GateSolver {
            circuit: Circuit::new(gates, count, output),
            additions: Additions::none(),
        }
    }
}

// Whether two assignments decide otherwise of some variable.
fn differ(one: Assignment, other: Assignment) -> bool
    ensures differ { result ≡ differ one other }
{
    one != other
}

impl GateSolver<'_> {
    // The first added rule that forces a literal or has failed, then the first such bar as a rule.
    fn scan(&self, assignment: Assignment) -> Option<Finding>
        ensures first { result ≡ gate_scan self.now assignment }
    {
        find_forced_in_both(
            self.additions.rules(),
            self.additions.bars(),
            self.circuit.inputs,
            assignment,
        )
    }

    // Whether a setting stands, by evaluating every gate, added rule and bar.
    fn stands(&self, setting: Setting) -> bool
        ensures standing { result ≡ gate_good self.now (reading (gate_contacts self.now) setting) }
    {
        self.circuit.allows(setting) && self.additions.allows(self.circuit.inputs as usize, setting)
    }

    // Yes if the assignment stands with the rest open, else a choice; no where all is decided.
    fn decide(&self, assignment: Assignment, choice: Option<u8>) -> Found
        requires choice { Choice (gate_contacts self.now) assignment true choice }
        ensures says { Says (gate_contacts self.now) (gate_good self.now) assignment result }
    {
        if self.stands(assignment.into()) {
            return Found::Met;
        }
        match choice {
            Some(index) => Found::Split(index),
            None => Found::Conflict,
        }
    }

    // What follows from the assignment through the gates, else a choice.
    fn look_through_gates(&self, assignment: Assignment) -> Found
        ensures says { Says (gate_contacts self.now) (gate_good self.now) assignment result }
    {
        let Ok(known) = imply(self.circuit, assignment) else {
            return Found::Conflict;
        };
        let narrower = known.narrowed(self.circuit.inputs, assignment);
        if differ(narrower, assignment) {
            return Found::Narrowed(narrower);
        }
        match choose(&known, self.circuit, assignment) {
            Some(index) => Found::Split(index),
            None => self.decide(assignment, first_undecided(self.circuit.inputs, assignment)),
        }
    }

    // What the added rules and bars force, else what follows through the gates, else a choice.
    fn look_ahead(&self, assignment: Assignment) -> Found
        ensures says { Says (gate_contacts self.now) (gate_good self.now) assignment result }
    {
        match self.scan(assignment) {
            Some(finding) => finding.into(),
            None => self.look_through_gates(assignment),
        }
    }

    // All settings that agree with an assignment that leaves at most six inputs undecided, at once.
    fn try_lanes(&self, assignment: Assignment) -> Found
        requires few { undecided (gate_contacts self.now) assignment ≤ 6 }
        ensures says { Says (gate_contacts self.now) (gate_good self.now) assignment result }
    {
        match try_all(
            self.circuit,
            self.additions.rules(),
            self.additions.bars(),
            assignment,
        ) {
            Some(good) => Found::MetBy(good),
            None => Found::Conflict,
        }
    }

    // A choice without a look ahead.
    fn split(&self, assignment: Assignment) -> Found
        ensures says { Says (gate_contacts self.now) (gate_good self.now) assignment result }
    {
        match first_undecided(self.circuit.inputs, assignment) {
            Some(index) => Found::Split(index),
            None => self.decide(assignment, None),
        }
    }

    // A standing setting that agrees with the literals, each of which names a contact; none exactly where there is none.
    fn answer(&self, literals: &[i8]) -> Option<Setting>
        requires named { first_unnamed (gate_contacts self.now) literals.now ≡ None }
        ensures answer { Answers (gate_meaning self.now) literals.now result }
    {
        let found = find(self, LiteralSet::from(literals).into())?;
        Some(found.into())
    }
}

impl<'a> Look for GateSolver<'a> {
    ghost size = { gate_contacts };

    ghost good = { gate_good };

    ghost few = { few_variables };

    fn variables(&self) -> u8 {
        self.circuit.inputs
    }

    fn look(&self, assignment: Assignment) -> Found {
        let undecided = count_undecided(self.circuit.inputs, assignment);
        if undecided <= AT_ONCE {
            self.try_lanes(assignment)
        } else if undecided <= TRIED_ALL {
            self.split(assignment)
        } else {
            self.look_ahead(assignment)
        }
    }
}

impl<'a> Solver for GateSolver<'a> {
    ghost size = { gate_contacts };

    ghost base = { gate_base };

    ghost added = { gate_added };

    ghost bars = { gate_bars };

    ghost few = { λ s. (s.some_contact, s.circuit.few_inputs) };

    fn contacts(&self) -> usize {
        usize::from(self.circuit.inputs)
    }

    fn ask(&mut self, literals: &[i8]) -> Result<Option<Setting>, SolverFault> {
        if let Some(place) = find_unnamed(self.circuit.inputs as usize, literals) {
            return Err(SolverFault::BadLiteral(place));
        }
        Ok(self.answer(literals))
    }

    fn add(&mut self, literals: &[i8]) -> Result<(), SolverFault> {
        self.additions.add(self.circuit.inputs as usize, literals)
    }

    fn bar(&mut self, literals: &[i8]) -> Result<(), SolverFault> {
        self.additions.bar(self.circuit.inputs as usize, literals)
    }

    fn clear(&mut self) {
        self.additions.clear_bars();
    }
}
