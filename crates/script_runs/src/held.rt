// A pair of sheets with the tickets that it gave out.
ghost use Rattle.std.specs.Prelude.{◌≡◌};
ghost use Rattle.std.proofs.Props.{props};
ghost use Rattle.sheets.specs.Sheets.{sheet_meaning};
ghost use Rattle.tickets.specs.Tickets.{listed, tickets_of};

use crate::Kept;
use session::Pair;
use solver::Solver;

// MAKE has the label 1 and BREAK the label 2, and the tickets kept are those of the assumptions that each holds, in held order: what ASSUME gave out and RELEASE has not accepted back.
pub struct PairWithTickets<M: Solver, B: Solver> {
    pub pair: Pair<M, B>,
    pub kept: Kept,
    pub ghost make_label: { pair.make.label ≡ 1 },
    pub ghost break_label: { pair.brk.label ≡ 2 },
    pub ghost make_own: { listed kept.make ≡ tickets_of (sheet_meaning M.Solver pair.make) } by { Prim.hlevel props },
    pub ghost break_own: { listed kept.brk ≡ tickets_of (sheet_meaning B.Solver pair.brk) } by { Prim.hlevel props },
}
