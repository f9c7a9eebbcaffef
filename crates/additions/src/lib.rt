// The rules and bars that were added to a solver, of whatever kind it is.
#![tactic(auto)]

ghost use Rattle.std.specs.Prelude.{◌≡◌, []};
ghost use Rattle.tables.specs.Tables.{items};
ghost use Rattle.settings.specs.Settings.{all_met, any_covers};
ghost use Rattle.settings.specs.Readings.{reading};
ghost use Rattle.faults.specs.declared.SolverFault.TheVariants.{TooManyRules, TooManyBars};
ghost use Rattle.solver.specs.Meaning.{unnamed_fault, full_fault, outcome, appended};
ghost use Rattle.additions.specs.Additions.{rules_of, bars_of, passes};

use faults::SolverFault;
use literals::{LiteralSet, find_unnamed};
use settings::Setting;
use tables::table::Table;

// At most 64 added rules and at most 64 bars, each the set of its literals.
#[derive(Drop)]
pub struct Additions {
    rules: Table<LiteralSet, 64>,
    bars: Table<LiteralSet, 64>,
}

// Places the set of the literals last, where each literal names one of n contacts and there is room.
fn append(
    held: &mut Table<LiteralSet, 64>,
    n: usize,
    literals: &[i8],
    full: SolverFault,
) -> Result<(), SolverFault>
    ensures answer { result ≡ outcome (full_fault (unnamed_fault n literals.now) (items held.old) full) }
    ensures placed { items held.new ≡ appended (full_fault (unnamed_fault n literals.now) (items held.old) full) (items held.old) literals.now }
{
    if let Some(place) = find_unnamed(n, literals) {
        return Err(SolverFault::BadLiteral(place));
    }
    held.push(LiteralSet::from(literals)).map_err(|_| full)
}

// Whether a setting of n contacts meets every rule.
fn all_met(rules: &[LiteralSet], n: usize, setting: Setting) -> bool
    ensures met { result ≡ all_met rules.now (reading n setting) }
{
    rules.iter().all(|rule| setting.meets_set(n, *rule))
}

// Whether some bar covers a setting of n contacts.
fn any_covers(bars: &[LiteralSet], n: usize, setting: Setting) -> bool
    ensures covered { result ≡ any_covers bars.now (reading n setting) }
{
    bars.iter().any(|bar| setting.is_covered(n, *bar))
}

impl Additions {
    pub fn none() -> Self
        ensures no_rules { rules_of result ≡ [] }
        ensures no_bars { bars_of result ≡ [] }
    {
        Additions {
            rules: Table::new(LiteralSet::empty()),
            bars: Table::new(LiteralSet::empty()),
        }
    }

    pub fn rules(&self) -> &[LiteralSet]
        ensures entries { result.now ≡ rules_of self.now }
    {
        self.rules.as_slice()
    }

    pub fn bars(&self) -> &[LiteralSet]
        ensures entries { result.now ≡ bars_of self.now }
    {
        self.bars.as_slice()
    }

    // One rule over n contacts more.
    pub fn add(&mut self, n: usize, literals: &[i8]) -> Result<(), SolverFault>
        ensures answer { result ≡ outcome (full_fault (unnamed_fault n literals.now) (rules_of self.old) TooManyRules) }
        ensures rule_appended { rules_of self.new ≡ appended (full_fault (unnamed_fault n literals.now) (rules_of self.old) TooManyRules) (rules_of self.old) literals.now }
        ensures bars_kept { bars_of self.new ≡ bars_of self.old }
    {
        append(&mut self.rules, n, literals, SolverFault::TooManyRules)
    }

    // One bar over n contacts more.
    pub fn bar(&mut self, n: usize, literals: &[i8]) -> Result<(), SolverFault>
        ensures answer { result ≡ outcome (full_fault (unnamed_fault n literals.now) (bars_of self.old) TooManyBars) }
        ensures bar_appended { bars_of self.new ≡ appended (full_fault (unnamed_fault n literals.now) (bars_of self.old) TooManyBars) (bars_of self.old) literals.now }
        ensures rules_kept { rules_of self.new ≡ rules_of self.old }
    {
        append(&mut self.bars, n, literals, SolverFault::TooManyBars)
    }

    pub fn clear_bars(&mut self)
        ensures bars_emptied { bars_of self.new ≡ [] }
        ensures rules_kept { rules_of self.new ≡ rules_of self.old }
    {
        self.bars.clear();
    }

    // Whether a setting of n contacts meets every rule and is covered by no bar.
    pub fn allows(&self, n: usize, setting: Setting) -> bool
        ensures passed { result ≡ passes self.now (reading n setting) }
    {
        all_met(self.rules(), n, setting) && !any_covers(self.bars(), n, setting)
    }
}
