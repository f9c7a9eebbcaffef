// One request on a pair of sheets.
ghost use Rattle.std.specs.Prelude.{◌≡◌, List, [], ◌∷◌, ◌++◌};
ghost use Rattle.sheets.specs.Sheets.{sheet_meaning};
ghost use Rattle.model.specs.Model.{PairModel};
ghost use Rattle.model.specs.Calls.{answered, next};
ghost use Rattle.model.specs.Guarantee.{Event};
ghost use Rattle.session.specs.Requests.{asks, says, event};
ghost use Rattle.session.specs.Served.{call_reply, call_next, request_reply, make_after, break_after};
ghost use Rattle.session.specs.Mirrors.{Mirrors, Stands};

use crate::Pair;
use crate::request::{Answer, Refused, Request, Response, Returned, SheetCall};
use model::Side;
use sheets::Sheet;
use solver::Solver;
use terms::terms;

// Puts one call to one sheet.
fn serve_call<S: Solver>(sheet: &mut Sheet<S>, call: SheetCall) -> Response
    ensures answer { says result ≡ call_reply (sheet_meaning S.Solver sheet.old) call }
    ensures meaning { sheet_meaning S.Solver sheet.new ≡ call_next (sheet_meaning S.Solver sheet.old) call }
{
    match call {
        SheetCall::Rule(literals) => {
            sheet.rule(literals.as_slice())?;
            Ok(Answer::Done)
        }
        SheetCall::Assume(literal) => Ok(Answer::Issued(sheet.assume(literal)?)),
        SheetCall::Release(ticket) => {
            sheet.release(ticket)?;
            Ok(Answer::Done)
        }
        SheetCall::Least(mut buffer) => match sheet.least(buffer.as_mut_slice()) {
            Ok(()) => Ok(Answer::Least(buffer)),
            Err(fault) => Err(Refused {
                fault,
                returned: Returned::Literals(buffer),
            }),
        },
        SheetCall::Why(mut buffer) => match sheet.why(buffer.as_mut_slice()) {
            Ok(size) => Ok(Answer::Why(size, buffer)),
            Err(fault) => Err(Refused {
                fault,
                returned: Returned::Literals(buffer),
            }),
        },
    }
}

// Puts one request to a pair.
fn serve_request<M: Solver, B: Solver>(
    make: &mut Sheet<M>,
    brk: &mut Sheet<B>,
    request: Request,
) -> Response
    ensures answer { says result ≡ request_reply (sheet_meaning M.Solver make.old) (sheet_meaning B.Solver brk.old) request }
    ensures make_after { sheet_meaning M.Solver make.new ≡ make_after (sheet_meaning M.Solver make.old) request }
    ensures break_after { sheet_meaning B.Solver brk.new ≡ break_after (sheet_meaning B.Solver brk.old) request }
{
    match request {
        Request::Sheet(side, call) => match side {
            Side::Make => serve_call(make, call),
            Side::Break => serve_call(brk, call),
        },
        Request::Terms(mut buffer) => match terms(make, brk, buffer.as_mut_slice()) {
            Ok(count) => Ok(Answer::Terms(count, buffer)),
            Err(fault) => Err(Refused {
                fault,
                returned: Returned::Terms(buffer),
            }),
        },
    }
}

// One request on two lent sheets, by whoever's turn it is. For every start and every past by which the pair came from new sheets the guarantee goes on to hold.
pub fn take_turn<M: Solver, B: Solver>(
    make: &mut Sheet<M>,
    brk: &mut Sheet<B>,
    request: Request,
) -> Response
    ensures answer { says result ≡ request_reply (sheet_meaning M.Solver make.old) (sheet_meaning B.Solver brk.old) request }
    ensures make_after { sheet_meaning M.Solver make.new ≡ make_after (sheet_meaning M.Solver make.old) request }
    ensures break_after { sheet_meaning B.Solver brk.new ≡ break_after (sheet_meaning B.Solver brk.old) request }
    ensures by_the_model { (p : PairModel) → Mirrors M.Solver B.Solver (record { make = make.old; brk = brk.old }) p → (says result ≡ answered p (asks request)) × Mirrors M.Solver B.Solver (record { make = make.new; brk = brk.new }) (next p (asks request)) }
    ensures guarantee { (start : PairModel) (past : List Event) → Stands M.Solver B.Solver (record { make = make.old; brk = brk.old }) start past → Stands M.Solver B.Solver (record { make = make.new; brk = brk.new }) start (past ++ event request result ∷ []) }
{
    serve_request(make, brk, request)
}

impl<M: Solver, B: Solver> Pair<M, B> {
    // The same on a pair.
    pub fn take_turn(&mut self, request: Request) -> Response
        ensures answer { says result ≡ request_reply (sheet_meaning M.Solver self.old.make) (sheet_meaning B.Solver self.old.brk) request }
        ensures make_after { sheet_meaning M.Solver self.new.make ≡ make_after (sheet_meaning M.Solver self.old.make) request }
        ensures break_after { sheet_meaning B.Solver self.new.brk ≡ break_after (sheet_meaning B.Solver self.old.brk) request }
        ensures by_the_model { (p : PairModel) → Mirrors M.Solver B.Solver self.old p → (says result ≡ answered p (asks request)) × Mirrors M.Solver B.Solver self.new (next p (asks request)) }
        ensures guarantee { (start : PairModel) (past : List Event) → Stands M.Solver B.Solver self.old start past → Stands M.Solver B.Solver self.new start (past ++ event request result ∷ []) }
    {
        take_turn(&mut self.make, &mut self.brk, request)
    }
}
