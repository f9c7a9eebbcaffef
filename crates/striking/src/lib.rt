// Terms as bars of a solver, and the striking of terms that the others make needless.
#![tactic(auto)]

ghost use Rattle.std.specs.Prelude.{◌≡◌, ◌<◌, [], ◌∷◌, ◌++◌, length, if◌then◌else◌};
ghost use Rattle.tables.specs.Tables.{items};
ghost use Rattle.solver.specs.Meaning.{without_bars};
ghost use Rattle.solver.specs.Over.{meaning_of};
ghost use Rattle.striking.specs.Striking.{with_term, with_terms, covers_some, unstruck};

use queries::witness;
use settings::Term;
use solver::Solver;
use tables::table::Table;

// Bars what a term covers.
pub fn bar_term<S: Solver>(solver: &mut S, term: Term)
    ensures barred { meaning_of S.Solver solver.new ≡ with_term (meaning_of S.Solver solver.old) term }
{
    let literals = term.literals(solver.contacts());
    let _ = solver.bar(literals.as_slice());
}

// Bars what each of the terms covers.
fn bar_terms<S: Solver>(solver: &mut S, terms: &[Term])
    ensures barred { meaning_of S.Solver solver.new ≡ with_terms (meaning_of S.Solver solver.old) terms.now }
{
    for term in terms {
        bar_term(solver, *term);
    }
}

// Whether some setting stands that the term covers.
fn covers_some<S: Solver>(solver: &mut S, term: Term) -> bool
    ensures some { result ≡ covers_some (meaning_of S.Solver solver.old) term }
    ensures meaning_kept { meaning_of S.Solver solver.new ≡ meaning_of S.Solver solver.old }
{
    let literals = term.literals(solver.contacts());
    witness(solver, literals.as_slice()).is_some()
}

// Keeps a term where it covers a setting that neither those kept nor those behind it cover.
fn keep_next<S: Solver>(solver: &mut S, kept: &mut Table<Term, 64>, term: Term, later: &[Term])
    requires room { length (items kept.old) < 64 }
    ensures next { items kept.new ≡ (if covers_some (with_terms (with_terms (without_bars (meaning_of S.Solver solver.old)) (items kept.old)) later.now) term then items kept.old ++ term ∷ [] else items kept.old) }
    ensures barred { meaning_of S.Solver solver.new ≡ with_terms (with_terms (without_bars (meaning_of S.Solver solver.old)) (items kept.old)) later.now }
{
    solver.clear();
    bar_terms(solver, kept.as_slice());
    bar_terms(solver, later);
    if covers_some(solver, term) {
        let _ = kept.push(term);
    }
}

// The terms that are kept, one after another from the first to the last. The crate queries sieves literals by a loop of this shape: one for both would take
// the question as a closure that says what it keeps of the solver, which is longer than the two.
fn kept_of<S: Solver>(solver: &mut S, terms: &Table<Term, 64>) -> Table<Term, 64>
    ensures standing { items result ≡ unstruck (without_bars (meaning_of S.Solver solver.old)) [] (items terms.now) }
    ensures bars_apart { without_bars (meaning_of S.Solver solver.new) ≡ without_bars (meaning_of S.Solver solver.old) }
{
    let mut standing = Table::new(Term {
        closed: 0,
        opened: 0,
    });
    let all = terms.as_slice();
    for (k, term) in all.iter().enumerate() {
        keep_next(solver, &mut standing, *term, &all[k + 1..]);
    }
    standing
}

// Strikes each term, from the first to the last, where the others still standing cover every setting that it covers and MAKE allows. Bars of MAKE play no part, and it is left with none.
pub fn strike<M: Solver>(make: &mut M, terms: &Table<Term, 64>) -> Table<Term, 64>
    ensures standing { items result ≡ unstruck (without_bars (meaning_of M.Solver make.old)) [] (items terms.now) }
    ensures bars_emptied { meaning_of M.Solver make.new ≡ without_bars (meaning_of M.Solver make.old) }
{
    let kept = kept_of(make, terms);
    make.clear();
    kept
}
