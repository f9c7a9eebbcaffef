// Room for the tickets of a pair.
ghost use Rattle.std.specs.Prelude.{◌≡◌, []};
ghost use Rattle.tickets.specs.Tickets.{listed};

use tickets::Tickets;

// None is kept yet, and there is room for all that the two sheets may give out.
pub struct TicketRoom {
    pub(crate) make: Tickets,
    pub(crate) brk: Tickets,
    pub ghost make_none: { listed make ≡ [] },
    pub ghost break_none: { listed brk ≡ [] },
}
