// A solver with a cache of witnesses.
ghost use Rattle.std.specs.Prelude.{◌≡◌, true};
ghost use Rattle.tables.specs.Tables.{items};
ghost use Rattle.solver.specs.Over.{meaning_of};
ghost use Rattle.witnesses.specs.Witnesses.{all_stand};

use settings::Setting;
use solver::Solver;
use tables::table::Table;

// It has the meaning of the solver below, and holds up to 16 settings that stand, the oldest first.
#[derive(Drop)]
pub struct WitnessCache<S: Solver> {
    pub(crate) below: S,
    pub(crate) seen: Table<Setting, 16>,
    pub ghost standing: { all_stand (meaning_of S.Solver below) (items seen) ≡ true },
}
