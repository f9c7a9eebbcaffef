// A cache of witnesses over any solver: settings that ASK answered with before and that still stand.
#![tactic(auto)]

ghost use Rattle.std.specs.Prelude.{◌≡◌, []};
ghost use Rattle.std.specs.List.{find};
ghost use Rattle.std.specs.Option.{option_map};
ghost use Rattle.tables.specs.Tables.{items};
ghost use Rattle.settings.specs.Settings.{fits};
ghost use Rattle.settings.specs.Readings.{reading};
ghost use Rattle.solver.specs.Meaning.{Asked, add_fault, bar_fault, outcome, with_rule, with_bar, without_bars};
ghost use Rattle.solver.specs.Over.{meaning_of};
ghost use Rattle.witnesses.specs.Witnesses.{remembered, noted, emptied};
ghost use Rattle.witnesses.specs.Recalls.{recalled, Recalls};

use faults::SolverFault;
use literals::find_unnamed;
use settings::Setting;
use solver::Solver;
use tables::table::Table;

mod cache;

pub use cache::WitnessCache;

// The first setting of a list that agrees with all the literals, as a search finds it.
fn find_fitting<'a>(seen: &'a [Setting], n: usize, literals: &[i8]) -> Option<&'a Setting>
    ensures found { option_map (λ setting. setting.now) result ≡ find (λ setting. fits literals.now (reading n setting)) seen.now }
{
    seen.iter().find(|setting| setting.fits(n, literals))
}

// The oldest setting held that agrees with all the literals.
fn recall(seen: &[Setting], n: usize, literals: &[i8]) -> Option<Setting>
    ensures oldest { result ≡ recalled n literals.now seen.now }
{
    find_fitting(seen, n, literals).copied()
}

// Places a setting last; where 16 are held the oldest leaves.
fn remember(seen: &mut Table<Setting, 16>, setting: Setting)
    ensures remembered { items seen.new ≡ remembered (items seen.old) setting }
{
    if seen.len() >= 16 {
        let _ = seen.remove(0);
    }
    let _ = seen.push(setting);
}

// Remembers a yes.
fn note(seen: &mut Table<Setting, 16>, answer: Option<Setting>)
    ensures noted { items seen.new ≡ noted (items seen.old) answer }
{
    if let Some(setting) = answer {
        remember(seen, setting);
    }
}

impl<S: Solver> WitnessCache<S> {
    // It holds nothing at first.
    pub fn new(below: S) -> Self
        ensures solver { result.below ≡ below }
        ensures nothing_held { items result.seen ≡ [] }
    {
        WitnessCache {
            below,
            seen: Table::new(Setting { closed: 0 }),
        }
    }
}

impl<S: Solver> Solver for WitnessCache<S> {
    ghost size = { λ x. S.Solver.size x.below };

    ghost base = { λ x. S.Solver.base x.below };

    ghost added = { λ x. S.Solver.added x.below };

    ghost bars = { λ x. S.Solver.bars x.below };

    ghost few = { λ x. S.Solver.few x.below };

    fn contacts(&self) -> usize {
        self.below.contacts()
    }

    fn ask(&mut self, literals: &[i8]) -> Result<Option<Setting>, SolverFault>
        ensures answer { Asked (meaning_of S.Solver self.old.below) literals.now result }
        ensures meaning_kept { meaning_of S.Solver self.new.below ≡ meaning_of S.Solver self.old.below }
        ensures recalls { Recalls (S.Solver.size self.old.below) literals.now self.old result self.new }
    {
        let n = self.below.contacts();
        if let Some(place) = find_unnamed(n, literals) {
            return Err(SolverFault::BadLiteral(place));
        }
        if let Some(setting) = recall(self.seen.as_slice(), n, literals) {
            return Ok(Some(setting));
        }
        let answer = self.below.ask(literals)?;
        note(&mut self.seen, answer);
        Ok(answer)
    }

    fn add(&mut self, literals: &[i8]) -> Result<(), SolverFault>
        ensures answer { result ≡ outcome (add_fault (meaning_of S.Solver self.old.below) literals.now) }
        ensures rule_appended { meaning_of S.Solver self.new.below ≡ with_rule (meaning_of S.Solver self.old.below) literals.now }
        ensures emptied { items self.new.seen ≡ emptied result (items self.old.seen) }
    {
        self.below.add(literals)?;
        self.seen.clear(); // the rule may forbid what is held
        Ok(())
    }

    fn bar(&mut self, literals: &[i8]) -> Result<(), SolverFault>
        ensures answer { result ≡ outcome (bar_fault (meaning_of S.Solver self.old.below) literals.now) }
        ensures bar_appended { meaning_of S.Solver self.new.below ≡ with_bar (meaning_of S.Solver self.old.below) literals.now }
        ensures emptied { items self.new.seen ≡ emptied result (items self.old.seen) }
    {
        self.below.bar(literals)?;
        self.seen.clear(); // the bar may cover what is held
        Ok(())
    }

    // What is held is kept: a setting that stands still stands without bars.
    fn clear(&mut self)
        ensures bars_emptied { meaning_of S.Solver self.new.below ≡ without_bars (meaning_of S.Solver self.old.below) }
        ensures held_kept { self.new.seen ≡ self.old.seen }
    {
        self.below.clear();
    }
}
