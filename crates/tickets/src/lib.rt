// The tickets of one sheet that were given out and not yet accepted back.
#![tactic(auto)]

mod calls;
mod list;

pub use list::Tickets;
