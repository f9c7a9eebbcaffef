// Where the tickets of both sheets begin and end, and a session of a script on a pair with them.
ghost use Rattle.std.specs.Prelude.{◌≡◌, [], IfOk};
ghost use Rattle.sheets.specs.Sheets.{sheet_meaning};
ghost use Rattle.tickets.specs.Tickets.{listed, none_held};
ghost use Rattle.script_runs.specs.Fresh.{Fresh};
ghost use Rattle.script_runs.specs.Keeping.{Keeps};

use crate::{Kept, PairWithTickets, TicketRoom};
use session::Pair;
use sheets::Sheet;
use solver::Solver;
use std::alloc::{AllocError, Global};
use tickets::Tickets;

impl Kept {
    // None is kept, and there is room for all that two sheets may give out.
    pub fn none(heap: Global) -> Result<Self, AllocError>
        ensures none { IfOk result (λ k. (listed k.make ≡ []) × (listed k.brk ≡ [])) }
    {
        let make = Tickets::none(heap)?;
        match Tickets::none(heap) {
            Ok(brk) => Ok(Kept { make, brk }),
            Err(error) => {
                make.end();
                Err(error)
            }
        }
    }

    // Gives all tickets back to the lent sheets that they came from, which refuse none of them.
    pub fn give_all_back<M: Solver, B: Solver>(self, make: &mut Sheet<M>, brk: &mut Sheet<B>)
        requires keeps { Keeps (sheet_meaning M.Solver make.old) (sheet_meaning B.Solver brk.old) self }
        ensures make_after { sheet_meaning M.Solver make.new ≡ none_held (sheet_meaning M.Solver make.old) }
        ensures break_after { sheet_meaning B.Solver brk.new ≡ none_held (sheet_meaning B.Solver brk.old) }
    {
        let Kept {
            make: make_tickets,
            brk: break_tickets,
        } = self;
        make_tickets.give_all_back(make);
        break_tickets.give_all_back(brk);
    }
}

impl TicketRoom {
    pub fn new(heap: Global) -> Result<Self, AllocError> {
        let Kept { make, brk } = Kept::none(heap)?;
        Ok(TicketRoom { make, brk })
    }

    // Ends it where no pair came to use it.
    pub fn end(self) {
        let TicketRoom { make, brk } = self;
        make.end();
        brk.end();
    }
}

impl<M: Solver, B: Solver> PairWithTickets<M, B> {
    // A pair on which nothing is held, so that no ticket is out.
    pub fn new(pair: Pair<M, B>, room: TicketRoom) -> Self
        requires make_fresh { Fresh 1 (sheet_meaning M.Solver pair.make) }
        requires break_fresh { Fresh 2 (sheet_meaning B.Solver pair.brk) }
        ensures same_pair { result.pair ≡ pair }
    {
        let TicketRoom { make, brk } = room;
        PairWithTickets {
            pair,
            kept: Kept { make, brk },
        }
    }

    // Gives all tickets back to the sheets that they came from, which refuse none of them.
    pub fn end(self) -> Pair<M, B>
        ensures make_after { sheet_meaning M.Solver result.make ≡ none_held (sheet_meaning M.Solver self.pair.make) }
        ensures break_after { sheet_meaning B.Solver result.brk ≡ none_held (sheet_meaning B.Solver self.pair.brk) }
    {
        let PairWithTickets { mut pair, kept } = self;
        kept.give_all_back(&mut pair.make, &mut pair.brk);
        pair
    }
}
