// The smallest solver that meets the contract of all: it looks through a plain list of allowed settings.
#![tactic(auto)]

ghost use Rattle.std.specs.Prelude.{◌≡◌};
ghost use Rattle.settings.specs.Readings.{reading, first_passing};
ghost use Rattle.additions.specs.Additions.{rules_of, bars_of, meaning_with};
ghost use Rattle.solver.specs.Meaning.{Answers};
ghost use Rattle.enumerated.specs.Enumerated.{listed, passes_with, plain_meaning};

use additions::Additions;
use faults::SolverFault;
use literals::find_unnamed;
use settings::Setting;
use solver::{ContactCount, Solver};

// The settings that the list allows, and what was added.
#[derive(Drop)]
pub struct ListSolver<'a> {
    allowed: &'a [Setting],
    count: ContactCount,
    additions: Additions,
}

impl<'a> ListSolver<'a> {
    // Nothing is added at first.
    pub fn new(allowed: &'a [Setting], count: ContactCount) -> Self
        ensures listed { result.allowed.now ≡ allowed.now }
        ensures nothing_added { meaning_with result.count.contacts (listed result.count.contacts result.allowed.now) result.additions ≡ plain_meaning count.contacts allowed.now }
    {
        ListSolver {
            allowed,
            count,
            additions: Additions::none(),
        }
    }

    fn passes(&self, setting: Setting, literals: &[i8]) -> bool
        ensures passed { result ≡ passes_with self.now.additions literals.now (reading self.now.count.contacts setting) }
    {
        let n = self.contacts();
        self.additions.allows(n, setting) && setting.fits(n, literals)
    }

    fn find(&self, literals: &[i8]) -> Option<Setting>
        ensures first { result ≡ first_passing self.now.count.contacts (passes_with self.now.additions literals.now) self.now.allowed.now }
        ensures answer { Answers (meaning_with self.now.count.contacts (listed self.now.count.contacts self.now.allowed.now) self.now.additions) literals.now result }
    {
        self.allowed
            .iter()
            .find(|setting| self.passes(**setting, literals))
            .copied()
    }
}

impl<'a> Solver for ListSolver<'a> {
    ghost size = { λ s. s.count.contacts };

    ghost base = { λ s. listed s.count.contacts s.allowed.now };

    ghost added = { λ s. rules_of s.additions };

    ghost bars = { λ s. bars_of s.additions };

    ghost few = { λ s. (s.count.some_contact, s.count.few_contacts) };

    fn contacts(&self) -> usize {
        self.count.contacts as usize
    }

    fn ask(&mut self, literals: &[i8]) -> Result<Option<Setting>, SolverFault> {
        if let Some(place) = find_unnamed(self.contacts(), literals) {
            return Err(SolverFault::BadLiteral(place));
        }
        Ok(self.find(literals))
    }

    fn add(&mut self, literals: &[i8]) -> Result<(), SolverFault> {
        let n = self.contacts();
        self.additions.add(n, literals)
    }

    fn bar(&mut self, literals: &[i8]) -> Result<(), SolverFault> {
        let n = self.contacts();
        self.additions.bar(n, literals)
    }

    fn clear(&mut self) {
        self.additions.clear_bars();
    }
}
