// The same requests on two pairs of sheets.
ghost use Rattle.std.specs.Prelude.{◌≡◌, List, ◌++◌, map, MatchResult};
ghost use Rattle.model.specs.Model.{PairModel};
ghost use Rattle.model.specs.Guarantee.{Event, calls_of, AlikePairs};
ghost use Rattle.session.specs.Requests.{asks, says, events};
ghost use Rattle.session.specs.Mirrors.{Mirrors, Served, Stands, BothServed};

use crate::Pair;
use crate::lists::serve;
use crate::request::{Request, Response};
use sheets::Sheet;
use solver::Solver;
use std::alloc::Global;

// What two pairs were answered, each with its responses, or with its requests where there was no memory for them.
pub struct Compared {
    pub first: Result<Vec<Response>, Vec<Request>>,
    pub second: Result<Vec<Response>, Vec<Request>>,
}

// Serves each of two lent pairs its own requests.
fn serve_each<M: Solver, B: Solver, N: Solver, C: Solver>(
    heap: Global,
    make: &mut Sheet<M>,
    brk: &mut Sheet<B>,
    spare_make: &mut Sheet<N>,
    spare_break: &mut Sheet<C>,
    requests: Vec<Request>,
    same: Vec<Request>,
) -> Compared
    ensures first_served { (p : PairModel) → Mirrors M.Solver B.Solver (record { make = make.old; brk = brk.old }) p → MatchResult result.first (λ responses. Served M.Solver B.Solver (record { make = make.new; brk = brk.new }) p requests.items responses.items) (λ _. Mirrors M.Solver B.Solver (record { make = make.new; brk = brk.new }) p) }
    ensures second_served { (p : PairModel) → Mirrors N.Solver C.Solver (record { make = spare_make.old; brk = spare_break.old }) p → MatchResult result.second (λ responses. Served N.Solver C.Solver (record { make = spare_make.new; brk = spare_break.new }) p same.items responses.items) (λ _. Mirrors N.Solver C.Solver (record { make = spare_make.new; brk = spare_break.new }) p) }
{
    let first = serve(heap, make, brk, requests);
    let second = serve(heap, spare_make, spare_break, same);
    Compared { first, second }
}

// Serves requests on two lent sheets and the same requests on two others, over solvers of any four kinds. A ticket cannot be copied, so each pair brings its own list; they are the same
// where they read alike. Where the pairs were alike when new and were asked the same before, all responses are equal, to the last entry of every buffer: so a spare is compared with the card that it replaces.
pub fn serve_both_lent<M: Solver, B: Solver, N: Solver, C: Solver>(
    heap: Global,
    make: &mut Sheet<M>,
    brk: &mut Sheet<B>,
    spare_make: &mut Sheet<N>,
    spare_break: &mut Sheet<C>,
    requests: Vec<Request>,
    same: Vec<Request>,
) -> Compared
    ensures first_guarantee { (start : PairModel) (past : List Event) → Stands M.Solver B.Solver (record { make = make.old; brk = brk.old }) start past → MatchResult result.first (λ responses. Stands M.Solver B.Solver (record { make = make.new; brk = brk.new }) start (past ++ events requests.items responses.items)) (λ _. Stands M.Solver B.Solver (record { make = make.new; brk = brk.new }) start past) }
    ensures second_guarantee { (start : PairModel) (past : List Event) → Stands N.Solver C.Solver (record { make = spare_make.old; brk = spare_break.old }) start past → MatchResult result.second (λ responses. Stands N.Solver C.Solver (record { make = spare_make.new; brk = spare_break.new }) start (past ++ events same.items responses.items)) (λ _. Stands N.Solver C.Solver (record { make = spare_make.new; brk = spare_break.new }) start past) }
    ensures same_responses { (start start' : PairModel) (past past' : List Event) → Stands M.Solver B.Solver (record { make = make.old; brk = brk.old }) start past → Stands N.Solver C.Solver (record { make = spare_make.old; brk = spare_break.old }) start' past' → AlikePairs start start' → calls_of past' ≡ calls_of past → map asks same.items ≡ map asks requests.items → BothServed result.first result.second (λ a b. map says b.items ≡ map says a.items) }
{
    serve_each(heap, make, brk, spare_make, spare_break, requests, same)
}

// The same on two pairs.
pub fn serve_both<M: Solver, B: Solver, N: Solver, C: Solver>(
    heap: Global,
    pair: &mut Pair<M, B>,
    spare: &mut Pair<N, C>,
    requests: Vec<Request>,
    same: Vec<Request>,
) -> Compared
    ensures first_guarantee { (start : PairModel) (past : List Event) → Stands M.Solver B.Solver pair.old start past → MatchResult result.first (λ responses. Stands M.Solver B.Solver pair.new start (past ++ events requests.items responses.items)) (λ _. Stands M.Solver B.Solver pair.new start past) }
    ensures second_guarantee { (start : PairModel) (past : List Event) → Stands N.Solver C.Solver spare.old start past → MatchResult result.second (λ responses. Stands N.Solver C.Solver spare.new start (past ++ events same.items responses.items)) (λ _. Stands N.Solver C.Solver spare.new start past) }
    ensures same_responses { (start start' : PairModel) (past past' : List Event) → Stands M.Solver B.Solver pair.old start past → Stands N.Solver C.Solver spare.old start' past' → AlikePairs start start' → calls_of past' ≡ calls_of past → map asks same.items ≡ map asks requests.items → BothServed result.first result.second (λ a b. map says b.items ≡ map says a.items) }
{
    serve_both_lent(
        heap,
        &mut pair.make,
        &mut pair.brk,
        &mut spare.make,
        &mut spare.brk,
        requests,
        same,
    )
}
