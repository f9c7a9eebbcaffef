// The earliest setting and the reason of smallest number, over any solver.
#![tactic(auto)]

ghost use Rattle.std.specs.Prelude.{◌≡◌, ◌+◌, ◌<◌, ◌≤◌, true, not, [], ◌∷◌, ◌++◌, length, is_some, if◌then◌else◌, Some, None, unwrap_or};
ghost use Rattle.tables.specs.Tables.{items};
ghost use Rattle.settings.specs.Settings.{literal};
ghost use Rattle.settings.specs.Readings.{reading};
ghost use Rattle.laws.specs.Choices.{enough, trim};
ghost use Rattle.solver.specs.Meaning.{literal_fault, stands, stands_with};
ghost use Rattle.solver.specs.Over.{meaning_of};
ghost use Rattle.queries.specs.Queries.{possible_with, Shown, Ready, wanted_next, least_literals, why_literals, answered, listed};

use faults::SolverFault;
use settings::{Setting, literal_of};
use solver::Solver;
use tables::table::Table;

// Two lists of literals, one behind the other.
fn joined(front: &[i8], back: &[i8]) -> Table<i8, 65>
    requires room { length front.now + length back.now ≤ 65 }
    ensures both { items result ≡ front.now ++ back.now }
{
    let mut all = Table::new(0);
    let _ = all.extend(front);
    let _ = all.extend(back);
    all
}

// A standing setting that agrees with all the literals; there is none where a literal names no contact.
#[tactic(auto, using(crate::proofs::Answers::witness_found, crate::proofs::Answers::witness_shown))]
pub fn witness<S: Solver>(solver: &mut S, literals: &[i8]) -> Option<Setting>
    ensures found { is_some result ≡ possible_with (meaning_of S.Solver solver.old) literals.now }
    ensures shown { Shown (meaning_of S.Solver solver.old) literals.now result }
    ensures meaning_kept { meaning_of S.Solver solver.new ≡ meaning_of S.Solver solver.old }
{
    solver.ask(literals).unwrap_or(None)
}

// Keeps a literal where those kept and those behind it are not enough without it.
fn keep_next<S: Solver>(solver: &mut S, kept: &mut Table<i8, 32>, literal: i8, later: &[i8])
    requires room { length (items kept.old) + length later.now < 32 }
    ensures next { items kept.new ≡ (if possible_with (meaning_of S.Solver solver.old) (items kept.old ++ later.now) then items kept.old ++ literal ∷ [] else items kept.old) }
    ensures meaning_kept { meaning_of S.Solver solver.new ≡ meaning_of S.Solver solver.old }
{
    let asked = joined(kept.as_slice(), later);
    if witness(solver, asked.as_slice()).is_some() {
        let _ = kept.push(literal);
    }
}

// The held literals without those that can be left out, from the first to the last, where the rest is still enough.
fn trimmed<S: Solver>(solver: &mut S, held: &Table<i8, 32>) -> Table<i8, 32>
    requires named { literal_fault (meaning_of S.Solver solver.old) (items held.now) ≡ None }
    ensures left { items result ≡ trim (enough (meaning_of S.Solver solver.old).contacts (stands (meaning_of S.Solver solver.old))) [] (items held.now) }
    ensures meaning_kept { meaning_of S.Solver solver.new ≡ meaning_of S.Solver solver.old }
{
    let mut choice = Table::new(0);
    let all = held.as_slice();
    for (k, literal) in all.iter().enumerate() {
        keep_next(solver, &mut choice, *literal, &all[k + 1..]);
    }
    choice
}

// WHY: the choice of smallest number from the held literals that no standing setting agrees with, or none where a standing setting agrees with all of them.
pub fn reason<S: Solver>(
    solver: &mut S,
    held: &Table<i8, 32>,
) -> Result<Option<Table<i8, 32>>, SolverFault>
    ensures answer { listed result ≡ answered (literal_fault (meaning_of S.Solver solver.old) (items held.now)) (why_literals (meaning_of S.Solver solver.old) (items held.now)) }
    ensures meaning_kept { meaning_of S.Solver solver.new ≡ meaning_of S.Solver solver.old }
{
    match solver.ask(held.as_slice())? {
        Some(_) => Ok(None),
        None => Ok(Some(trimmed(solver, held))),
    }
}

// How far the search for the earliest setting has come: the literals held, those placed so far, one for each contact from the first on, and the standing setting found last.
#[derive(Drop)]
struct Placing<'a> {
    held: &'a Table<i8, 32>,
    placed: Table<i8, 32>,
    last: Setting,
}

impl<'a> Placing<'a> {
    // What is held and placed, with the next contact wanted open behind it.
    fn wanting_open(&self) -> Table<i8, 65>
        requires room { length (items self.now.placed) < 32 }
        ensures all { items result ≡ wanted_next self.now }
    {
        let mut all = joined(self.held.as_slice(), self.placed.as_slice());
        let _ = all.push(literal_of(self.placed.len(), false));
        all
    }

    // A standing setting that agrees with what is held and placed and has the next contact open: the one found last where it serves, and else ASK tells.
    fn next_open<S: Solver>(&self, solver: &mut S) -> Option<Setting>
        requires room { length (items self.now.placed) < 32 }
        requires ready { Ready (meaning_of S.Solver solver.old) (wanted_next self.now) self.now.last (length (items self.now.placed)) }
        ensures found { is_some result ≡ possible_with (meaning_of S.Solver solver.old) (wanted_next self.now) }
        ensures shown { Shown (meaning_of S.Solver solver.old) (wanted_next self.now) result }
        ensures meaning_kept { meaning_of S.Solver solver.new ≡ meaning_of S.Solver solver.old }
    {
        if self
            .last
            .agrees(solver.contacts(), literal_of(self.placed.len(), false))
        {
            return Some(self.last);
        }
        let asked = self.wanting_open();
        witness(solver, asked.as_slice())
    }

    // Places the literal of the next contact last: open with the setting that was found, and closed where there is none.
    fn place(&mut self, found: Option<Setting>)
        requires room { length (items self.old.placed) < 32 }
        ensures next { items self.new.placed ≡ items self.old.placed ++ literal (length (items self.old.placed)) (not (is_some found)) ∷ [] }
        ensures last { self.new.last ≡ unwrap_or found self.old.last }
        ensures held_kept { self.new.held ≡ self.old.held }
    {
        let literal = literal_of(self.placed.len(), found.is_none());
        let _ = self.placed.push(literal);
        self.last = found.unwrap_or(self.last);
    }
}

// The literals of the earliest standing setting that agrees with the held ones, where one such setting is known.
fn decided<S: Solver>(solver: &mut S, held: &Table<i8, 32>, first: Setting) -> Table<i8, 32>
    requires named { literal_fault (meaning_of S.Solver solver.old) (items held.now) ≡ None }
    requires shown { stands_with (meaning_of S.Solver solver.old) (items held.now) (reading (meaning_of S.Solver solver.old).contacts first) ≡ true }
    ensures earliest { Some (items result) ≡ least_literals (meaning_of S.Solver solver.old) (items held.now) }
    ensures meaning_kept { meaning_of S.Solver solver.new ≡ meaning_of S.Solver solver.old }
{
    let mut placing = Placing {
        held,
        placed: Table::new(0),
        last: first,
    };
    for _ in 0..solver.contacts() {
        let found = placing.next_open(solver);
        placing.place(found);
    }
    placing.placed
}

// LEAST: the literals of the earliest standing setting that agrees with the held ones, or none where there is no such setting.
pub fn earliest<S: Solver>(
    solver: &mut S,
    held: &Table<i8, 32>,
) -> Result<Option<Table<i8, 32>>, SolverFault>
    ensures answer { listed result ≡ answered (literal_fault (meaning_of S.Solver solver.old) (items held.now)) (least_literals (meaning_of S.Solver solver.old) (items held.now)) }
    ensures meaning_kept { meaning_of S.Solver solver.new ≡ meaning_of S.Solver solver.old }
{
    match solver.ask(held.as_slice())? {
        None => Ok(None),
        Some(first) => Ok(Some(decided(solver, held, first))),
    }
}
