// Sessions: requests of several engineers on a pair of sheets, served one after the other, and what is guaranteed of the responses.
#![tactic(auto)]

mod both;
mod lists;
mod pair;
pub mod request;
mod start;
mod turns;

pub use both::{Compared, serve_both, serve_both_lent};
pub use lists::serve;
pub use pair::Pair;
pub use start::begin;
pub use turns::take_turn;
