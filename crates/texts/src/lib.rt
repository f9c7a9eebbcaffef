// Cuts a text into words, each with its place, and judges what is due next in it.
#![tactic(auto)]

ghost use Rattle.std.specs.Prelude.{◌+◌, ◌<◌, ◌^◌, length};

mod cut;
mod decimal;
mod due;
mod kind;

pub use due::{check_length, exact, limited};
pub use kind::is_gate_text;

// What stands next in a text, with the place of its first byte; places count from 0.
// A word is a run of bytes other than space and line feed, and borrows those bytes of the text.
#[derive(Clone, Copy)]
pub enum Token<'a> {
    Word(&'a [u8], usize),
    LineEnd(usize),
    End(usize),
}

// A text that is read from its front on, word by word.
#[derive(Drop)]
pub struct Words<'a> {
    // what is not read yet
    rest: &'a [u8],
    // the place of its first byte
    at: usize,
    ghost fits: { at + length rest.now < 2 ^ 63 },
}
