// The earliest standing setting, looked for near another one. Where no standing setting is before that one, it is the earliest of all,
// and the contacts that both share cost few questions.
#![tactic(auto)]

ghost use Rattle.std.specs.Prelude.{◌≡◌, ◌<◌, [], ◌∷◌, ◌++◌, length, if◌then◌else◌};
ghost use Rattle.std.specs.Option.{option_map};
ghost use Rattle.tables.specs.Tables.{items};
ghost use Rattle.solver.specs.Over.{meaning_of};
ghost use Rattle.queries.specs.Queries.{possible_with};
ghost use Rattle.picking.specs.Picking.{shared_front, picked_under, picked};

use queries::{earliest, witness};
use solver::Solver;
use tables::table::Table;

// A front with one literal more.
fn with_last(front: &Table<i8, 32>, literal: i8) -> Table<i8, 32>
    requires room { length (items front.now) < 32 }
    ensures all { items result ≡ items front.now ++ literal ∷ [] }
{
    let mut longer = Table::new(0);
    let _ = longer.extend(front.as_slice());
    let _ = longer.push(literal);
    longer
}

// Places a literal last where some standing setting agrees with it and with all of the front, and tells whether one does.
fn extend_front<S: Solver>(solver: &mut S, front: &mut Table<i8, 32>, literal: i8) -> bool
    requires room { length (items front.old) < 32 }
    ensures possible { result ≡ possible_with (meaning_of S.Solver solver.old) (items front.old ++ literal ∷ []) }
    ensures placed { items front.new ≡ (if possible_with (meaning_of S.Solver solver.old) (items front.old ++ literal ∷ []) then items front.old ++ literal ∷ [] else items front.old) }
    ensures meaning_kept { meaning_of S.Solver solver.new ≡ meaning_of S.Solver solver.old }
{
    let longer = with_last(front, literal);
    let possible = witness(solver, longer.as_slice()).is_some();
    if possible {
        *front = longer;
    }
    possible
}

// As many literals from the front of a list as some standing setting agrees with all of.
fn shared_front<S: Solver>(solver: &mut S, near: &Table<i8, 32>) -> Table<i8, 32>
    ensures shared { items result ≡ shared_front (meaning_of S.Solver solver.old) [] (items near.now) }
    ensures meaning_kept { meaning_of S.Solver solver.new ≡ meaning_of S.Solver solver.old }
{
    let mut front = Table::new(0);
    for literal in near.as_slice() {
        if !extend_front(solver, &mut front, *literal) {
            return front;
        }
    }
    front
}

// The literals of the earliest standing setting that agrees with a front; none where there is none, or a literal names no contact.
fn pick_under<S: Solver>(solver: &mut S, front: &Table<i8, 32>) -> Option<Table<i8, 32>>
    ensures earliest { option_map items result ≡ picked_under (meaning_of S.Solver solver.old) (items front.now) }
    ensures meaning_kept { meaning_of S.Solver solver.new ≡ meaning_of S.Solver solver.old }
{
    earliest(solver, front).unwrap_or(None)
}

// The literals of the earliest of the standing settings that share the longest front with the given literals.
pub fn pick<S: Solver>(solver: &mut S, near: &Table<i8, 32>) -> Option<Table<i8, 32>>
    ensures earliest { option_map items result ≡ picked (meaning_of S.Solver solver.old) (items near.now) }
    ensures meaning_kept { meaning_of S.Solver solver.new ≡ meaning_of S.Solver solver.old }
{
    let front = shared_front(solver, near);
    pick_under(solver, &front)
}
