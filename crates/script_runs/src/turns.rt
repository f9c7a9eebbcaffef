// Requests put to the pair.
ghost use Rattle.std.specs.Prelude.{◌≡◌, ◌<◌, length};
ghost use Rattle.sheets.specs.Sheets.{sheet_meaning, held_at};
ghost use Rattle.session.specs.Requests.{says};
ghost use Rattle.session.specs.Served.{request_reply, make_after, break_after};
ghost use Rattle.script_runs.specs.Outcomes.{outcome_form, shown, Ticketless};
ghost use Rattle.script_runs.specs.Obeyed.{sided, assume_reply, make_assumed, break_assumed, release_reply, make_released, break_released, ticket_at, kept_after, Labelled, ticket_of, release_outcome};
ghost use Rattle.tickets.specs.Tickets.{listed, tickets_of};

use super::Outcome;
use faults::Refusal;
use model::Side;
use session::request::{Answer, Refused, Request, Response, Returned, SheetCall};
use session::take_turn;
use sheets::{Sheet, Ticket};
use solver::Solver;
use tickets::Tickets;

// Puts a request that brings no ticket and asks for none. The sheet that is asked has so many contacts.
pub fn ask<M: Solver, B: Solver>(
    make: &mut Sheet<M>,
    brk: &mut Sheet<B>,
    contacts: usize,
    request: Request,
) -> Outcome
    requires ticketless { Ticketless request }
    ensures answer { outcome_form result ≡ shown contacts (request_reply (sheet_meaning M.Solver make.old) (sheet_meaning B.Solver brk.old) request) }
    ensures make_after { sheet_meaning M.Solver make.new ≡ make_after (sheet_meaning M.Solver make.old) request }
    ensures break_after { sheet_meaning B.Solver brk.new ≡ break_after (sheet_meaning B.Solver brk.old) request }
{
    match take_turn(make, brk, request) {
        Ok(answer) => match answer {
            Answer::Done => Outcome::Done,
            Answer::Least(buffer) => Outcome::Least(contacts, buffer),
            Answer::Why(size, buffer) => Outcome::Why(size, buffer),
            Answer::Terms(count, buffer) => Outcome::Terms(contacts, count, buffer),
            _ => unreachable(),
        },
        Err(Refused { fault, returned }) => match returned {
            Returned::Nothing => Outcome::Refused(Refusal::from(fault)),
            Returned::Literals(_) => Outcome::Refused(Refusal::from(fault)),
            Returned::Terms(_) => Outcome::Refused(Refusal::from(fault)),
            _ => unreachable(),
        },
    }
}

// ASSUME, put to one sheet of the pair; in place, the proof of its caller did not close.
fn put_assume<M: Solver, B: Solver>(
    make: &mut Sheet<M>,
    brk: &mut Sheet<B>,
    side: Side,
    literal: i8,
) -> Response
    ensures answer { says result ≡ assume_reply (sided side (sheet_meaning M.Solver make.old) (sheet_meaning B.Solver brk.old)) literal }
    ensures make_after { sheet_meaning M.Solver make.new ≡ make_assumed side (sheet_meaning M.Solver make.old) literal }
    ensures break_after { sheet_meaning B.Solver brk.new ≡ break_assumed side (sheet_meaning B.Solver brk.old) literal }
{
    take_turn(make, brk, Request::Sheet(side, SheetCall::Assume(literal)))
}

// ASSUME on one sheet, whose ticket is kept behind the others that the sheet gave out.
pub fn assume<M: Solver, B: Solver>(
    make: &mut Sheet<M>,
    brk: &mut Sheet<B>,
    tickets: &mut Tickets,
    side: Side,
    literal: i8,
) -> Outcome
    requires its_own { listed tickets.old ≡ tickets_of (sided side (sheet_meaning M.Solver make.old) (sheet_meaning B.Solver brk.old)) }
    ensures answer { outcome_form result ≡ shown 0 (assume_reply (sided side (sheet_meaning M.Solver make.old) (sheet_meaning B.Solver brk.old)) literal) }
    ensures make_after { sheet_meaning M.Solver make.new ≡ make_assumed side (sheet_meaning M.Solver make.old) literal }
    ensures break_after { sheet_meaning B.Solver brk.new ≡ break_assumed side (sheet_meaning B.Solver brk.old) literal }
    ensures its_own { listed tickets.new ≡ tickets_of (sided side (sheet_meaning M.Solver make.new) (sheet_meaning B.Solver brk.new)) }
{
    match put_assume(make, brk, side, literal) {
        Ok(answer) => match answer {
            Answer::Issued(ticket) => {
                let outcome = Outcome::Issued(ticket.label(), ticket.number());
                tickets.keep(ticket);
                outcome
            }
            _ => unreachable(),
        },
        Err(Refused { fault, returned }) => match returned {
            Returned::Nothing => Outcome::Refused(Refusal::from(fault)),
            _ => unreachable(),
        },
    }
}

// RELEASE, put to one sheet of the pair; in place, the proof of its caller did not close.
fn put_release<M: Solver, B: Solver>(
    make: &mut Sheet<M>,
    brk: &mut Sheet<B>,
    side: Side,
    ticket: Ticket,
) -> Response
    ensures answer { says result ≡ release_reply (sided side (sheet_meaning M.Solver make.old) (sheet_meaning B.Solver brk.old)) ticket }
    ensures make_after { sheet_meaning M.Solver make.new ≡ make_released side (sheet_meaning M.Solver make.old) ticket }
    ensures break_after { sheet_meaning B.Solver brk.new ≡ break_released side (sheet_meaning B.Solver brk.old) ticket }
{
    take_turn(make, brk, Request::Sheet(side, SheetCall::Release(ticket)))
}

// Brings the ticket at a place to one sheet of the pair. Where the sheet refuses it, it goes back to its place.
fn bring<M: Solver, B: Solver>(
    make: &mut Sheet<M>,
    brk: &mut Sheet<B>,
    tickets: &mut Tickets,
    side: Side,
    place: usize,
) -> Outcome
    requires there { place < length (listed tickets.old) }
    ensures answer { outcome_form result ≡ shown 0 (release_reply (sided side (sheet_meaning M.Solver make.old) (sheet_meaning B.Solver brk.old)) (ticket_at (listed tickets.old) place)) }
    ensures make_after { sheet_meaning M.Solver make.new ≡ make_released side (sheet_meaning M.Solver make.old) (ticket_at (listed tickets.old) place) }
    ensures break_after { sheet_meaning B.Solver brk.new ≡ break_released side (sheet_meaning B.Solver brk.old) (ticket_at (listed tickets.old) place) }
    ensures tickets { listed tickets.new ≡ kept_after (held_at (sided side (sheet_meaning M.Solver make.old) (sheet_meaning B.Solver brk.old)) (ticket_at (listed tickets.old) place)) (listed tickets.old) place }
{
    let ticket = tickets.take(place);
    match put_release(make, brk, side, ticket) {
        Ok(answer) => match answer {
            Answer::Done => Outcome::Done,
            _ => unreachable(),
        },
        Err(Refused { fault, returned }) => match returned {
            Returned::Ticket(ticket) => {
                tickets.put_back(place, ticket);
                Outcome::Refused(Refusal::from(fault))
            }
            _ => unreachable(),
        },
    }
}

// Releases the ticket with a number of those that the owner gave out, if there is one, on one sheet of the pair.
pub fn release_from<M: Solver, B: Solver>(
    make: &mut Sheet<M>,
    brk: &mut Sheet<B>,
    tickets: &mut Tickets,
    owner: Side,
    side: Side,
    number: u16,
) -> Outcome
    requires labelled { Labelled (sheet_meaning M.Solver make.old) (sheet_meaning B.Solver brk.old) }
    requires its_own { listed tickets.old ≡ tickets_of (sided owner (sheet_meaning M.Solver make.old) (sheet_meaning B.Solver brk.old)) }
    ensures answer { outcome_form result ≡ release_outcome side (sheet_meaning M.Solver make.old) (sheet_meaning B.Solver brk.old) (ticket_of owner number) }
    ensures make_after { sheet_meaning M.Solver make.new ≡ make_released side (sheet_meaning M.Solver make.old) (ticket_of owner number) }
    ensures break_after { sheet_meaning B.Solver brk.new ≡ break_released side (sheet_meaning B.Solver brk.old) (ticket_of owner number) }
    ensures its_own { listed tickets.new ≡ tickets_of (sided owner (sheet_meaning M.Solver make.new) (sheet_meaning B.Solver brk.new)) }
    ensures others_own { tickets_of (sided owner (sheet_meaning B.Solver brk.new) (sheet_meaning M.Solver make.new)) ≡ tickets_of (sided owner (sheet_meaning B.Solver brk.old) (sheet_meaning M.Solver make.old)) }
{
    match tickets.find(number) {
        None => Outcome::NoTicket,
        Some(place) => bring(make, brk, tickets, side, place),
    }
}
