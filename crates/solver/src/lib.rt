// The five calls of a solver, and what they mean.
#![tactic(auto)]

ghost use Rattle.std.specs.Prelude.{◌≡◌, ℕ, ◌≤◌, Bool, List};
ghost use Rattle.literals.specs.declared.LiteralSet.{LiteralSet};
ghost use Rattle.solver.specs.Meaning.{meaning_from, Asked, add_fault, bar_fault, outcome, with_rule, with_bar, without_bars};

use faults::SolverFault;
use settings::Setting;

mod count;

pub use count::ContactCount;

// A solver's meaning has four parts: the number of contacts, from 1 to 32, a base set of settings, a list of added rules and a list of bars.
// A rule or a bar in it is the set of its literals: lists of the same literals are one rule or bar, and each accepted call still counts.
// A bar covers the settings that agree with all its literals.
pub trait Solver {
    ghost size: { Self → ℕ };

    ghost base: { Self → List Bool → Bool };

    ghost added: { Self → List LiteralSet };

    ghost bars: { Self → List LiteralSet };

    ghost few: { (s : Self) → (1 ≤ size s) × (size s ≤ 32) };

    // CONTACTS: the number of contacts.
    fn contacts(&self) -> usize
        ensures count { result ≡ size self.now };

    // ASK: a standing setting that agrees with all the literals, or none exactly where there is none.
    fn ask(&mut self, literals: &[i8]) -> Result<Option<Setting>, SolverFault>
        ensures answer { Asked (meaning_from size base added bars self.old) literals.now result }
        ensures meaning_kept { meaning_from size base added bars self.new ≡ meaning_from size base added bars self.old };

    // ADD: appends a rule.
    fn add(&mut self, literals: &[i8]) -> Result<(), SolverFault>
        ensures answer { result ≡ outcome (add_fault (meaning_from size base added bars self.old) literals.now) }
        ensures rule_appended { meaning_from size base added bars self.new ≡ with_rule (meaning_from size base added bars self.old) literals.now };

    // BAR: appends a bar.
    fn bar(&mut self, literals: &[i8]) -> Result<(), SolverFault>
        ensures answer { result ≡ outcome (bar_fault (meaning_from size base added bars self.old) literals.now) }
        ensures bar_appended { meaning_from size base added bars self.new ≡ with_bar (meaning_from size base added bars self.old) literals.now };

    // CLEAR: empties the bars.
    fn clear(&mut self)
        ensures bars_emptied { meaning_from size base added bars self.new ≡ without_bars (meaning_from size base added bars self.old) };
}
