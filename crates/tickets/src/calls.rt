// Keeping tickets and giving them back.
ghost use Rattle.std.specs.Prelude.{◌≡◌, ◌<◌, ◌≤◌, [], ◌∷◌, ◌++◌, length, IfOk, slice_index_or};
ghost use Rattle.std.specs.List.{remove, insert};
ghost use Rattle.sheets.specs.Sheets.{sheet_meaning};
ghost use Rattle.tickets.specs.Tickets.{listed, place_of, tickets_of, none_held};

use super::Tickets;
use sheets::{Sheet, Ticket};
use solver::Solver;
use std::alloc::{AllocError, Global};
use std::collections::VecDeque;
use trials::give_back;

// A sheet holds at most this many assumptions.
const MOST: usize = 32;

// The place of the first ticket with a number.
fn find_number(tickets: &[Ticket], number: u16) -> Option<usize>
    ensures first { result ≡ place_of number tickets.now }
{
    tickets.iter().position(|ticket| ticket.number() == number)
}

// Gives the tickets back to the sheet that they came from, the first one first.
fn give_each_back<S: Solver>(tickets: Vec<Ticket>, sheet: &mut Sheet<S>)
    requires its_own { tickets.items ≡ tickets_of (sheet_meaning S.Solver sheet.old) }
    ensures released { sheet_meaning S.Solver sheet.new ≡ none_held (sheet_meaning S.Solver sheet.old) }
{
    // no `for`: an iterator drops what it leaves, and a ticket cannot be dropped
    let mut left = VecDeque::from(tickets);
    while let Some(ticket) = left.pop_front() {
        give_back(sheet, ticket);
    }
    left.destroy_empty();
}

impl Tickets {
    pub fn none(heap: Global) -> Result<Self, AllocError>
        ensures none { IfOk result (λ t. listed t ≡ []) }
    {
        let kept = Vec::with_capacity(heap, MOST)?;
        Ok(Tickets { kept })
    }

    // Ends an empty list.
    pub fn end(self)
        requires none { listed self ≡ [] }
    {
        let Tickets { kept } = self;
        kept.destroy_empty();
    }

    // The place of the first ticket with a number.
    pub fn find(&self, number: u16) -> Option<usize>
        ensures first { result ≡ place_of number (listed self.now) }
    {
        find_number(self.kept.as_slice(), number)
    }

    // Keeps a ticket behind the others.
    pub fn keep(&mut self, ticket: Ticket)
        requires room { length (listed self.old) < 32 }
        ensures last { listed self.new ≡ listed self.old ++ ticket ∷ [] }
    {
        self.kept.push_reserved(ticket);
    }

    // Takes the ticket at a place out.
    pub fn take(&mut self, place: usize) -> Ticket
        requires there { place < length (listed self.old) }
        ensures taken { result ≡ slice_index_or (listed self.old) place result }
        ensures others { listed self.new ≡ remove (listed self.old) place }
    {
        self.kept.remove(place)
    }

    // Puts a ticket at a place, before those that stand from there on.
    pub fn put_back(&mut self, place: usize, ticket: Ticket)
        requires there { place ≤ length (listed self.old) }
        requires room { length (listed self.old) < 32 }
        ensures placed { listed self.new ≡ insert (listed self.old) place ticket }
    {
        match self.kept.insert(place, ticket) {
            Ok(()) => (),
            Err(_) => unreachable(),
        }
    }

    // Gives all tickets back to the sheet that they came from, which refuses none of them.
    pub fn give_all_back<S: Solver>(self, sheet: &mut Sheet<S>)
        requires its_own { listed self ≡ tickets_of (sheet_meaning S.Solver sheet.old) }
        ensures released { sheet_meaning S.Solver sheet.new ≡ none_held (sheet_meaning S.Solver sheet.old) }
    {
        let Tickets { kept } = self;
        give_each_back(kept, sheet);
    }
}
