// Where tickets are kept.
ghost use Rattle.std.specs.Prelude.{◌≤◌, vec_len, vec_capacity};

use sheets::Ticket;

// The tickets, in the order of the assumptions that they were given out for. A sheet holds at most 32, and there is room for all of them: keeping a ticket
// cannot fail for want of memory. Tickets cannot be let go, so they end only where their sheet accepts them back.
pub struct Tickets {
    pub(crate) kept: Vec<Ticket>,
    ghost few: { vec_len kept ≤ 32 },
    ghost room: { 32 ≤ vec_capacity kept },
}
