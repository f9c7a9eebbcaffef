// A list of requests on a pair of sheets.
ghost use Rattle.std.specs.Prelude.{◌≡◌, List, ◌++◌, IfErr, MatchResult};
ghost use Rattle.model.specs.Model.{PairModel};
ghost use Rattle.model.specs.Guarantee.{Event};
ghost use Rattle.session.specs.Requests.{events};
ghost use Rattle.session.specs.Mirrors.{Mirrors, Stands, Served};

use crate::Pair;
use crate::request::{Request, Response};
use crate::turns::take_turn;
use sheets::Sheet;
use solver::Solver;
use std::alloc::Global;
use std::collections::VecDeque;

// Serves the requests on two lent sheets, one after the other, and answers with their responses. For every start and every past by which the pair came from new sheets the guarantee
// goes on to hold, so that the next engineer goes on where this one ended. Where there is no memory for the responses, the requests come back and nothing is done.
#[tactic(auto, using(crate::proofs::Serving::serving_none))]
pub fn serve<M: Solver, B: Solver>(
    heap: Global,
    make: &mut Sheet<M>,
    brk: &mut Sheet<B>,
    requests: Vec<Request>,
) -> Result<Vec<Response>, Vec<Request>>
    ensures by_the_model { (p : PairModel) → Mirrors M.Solver B.Solver (record { make = make.old; brk = brk.old }) p → MatchResult result (λ responses. Served M.Solver B.Solver (record { make = make.new; brk = brk.new }) p requests.items responses.items) (λ _. Mirrors M.Solver B.Solver (record { make = make.new; brk = brk.new }) p) }
    ensures guarantee { (start : PairModel) (past : List Event) → Stands M.Solver B.Solver (record { make = make.old; brk = brk.old }) start past → MatchResult result (λ responses. Stands M.Solver B.Solver (record { make = make.new; brk = brk.new }) start (past ++ events requests.items responses.items)) (λ _. Stands M.Solver B.Solver (record { make = make.new; brk = brk.new }) start past) }
    ensures unserved { IfErr result (λ back. (back ≡ requests) × (make.new ≡ make.old) × (brk.new ≡ brk.old)) }
{
    let Ok(mut responses) = Vec::with_capacity(heap, requests.len()) else {
        return Err(requests);
    };
    // no `for`: an iterator drops what it leaves, and a ticket in a request cannot be dropped
    let mut waiting = VecDeque::from(requests);
    while let Some(request) = waiting.pop_front() {
        responses.push_reserved(take_turn(make, brk, request));
    }
    waiting.destroy_empty();
    Ok(responses)
}

impl<M: Solver, B: Solver> Pair<M, B> {
    // The same on a pair.
    pub fn serve(
        &mut self,
        heap: Global,
        requests: Vec<Request>,
    ) -> Result<Vec<Response>, Vec<Request>>
        ensures by_the_model { (p : PairModel) → Mirrors M.Solver B.Solver self.old p → MatchResult result (λ responses. Served M.Solver B.Solver self.new p requests.items responses.items) (λ _. Mirrors M.Solver B.Solver self.new p) }
        ensures guarantee { (start : PairModel) (past : List Event) → Stands M.Solver B.Solver self.old start past → MatchResult result (λ responses. Stands M.Solver B.Solver self.new start (past ++ events requests.items responses.items)) (λ _. Stands M.Solver B.Solver self.new start past) }
        ensures unserved { IfErr result (λ back. (back ≡ requests) × (self.new ≡ self.old)) }
    {
        serve(heap, &mut self.make, &mut self.brk, requests)
    }
}
