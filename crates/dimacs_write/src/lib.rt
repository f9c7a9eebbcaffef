// Writes rules as a clause text: a heading `p cnf V C`, and a line for each rule.
#![tactic(auto)]

mod bytes;
mod text;

pub use text::write;

// A lent buffer that bytes are put into, from its front on. Past its end nothing is put, and the bytes are counted all the same:
// a first round on an empty buffer measures, and a second one writes.
#[derive(Drop)]
struct Output<'a> {
    buffer: &'a mut [u8],
    // how many bytes were put
    length: usize,
}
