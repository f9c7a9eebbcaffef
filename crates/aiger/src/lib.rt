// Reads gate texts in AIGER ASCII form: a heading `aag M I L O A`, lines of inputs, one output and A gates.
// Gates are read only from a text whose heading was accepted: `Opening::heading` spends the opening.
#![tactic(auto)]

ghost use Rattle.std.specs.Prelude.{◌≡◌};

mod body;
mod head;

use texts::Words;

// A gate is the AND of its two sides. A side is a literal: 2k is variable k, 2k + 1 its opposite, 0 false and 1 true.
#[derive(Clone, Copy, PartialEq, Eq)]
pub struct Gate {
    pub left: u16,
    pub right: u16,
}

// A text of which nothing is read yet. Gate texts have a type of their own for it, so that its heading gives the reader of gates.
#[derive(Drop)]
pub struct Opening<'a> {
    words: Words<'a>,
}

// A text whose heading, inputs and output were accepted.
#[derive(Drop)]
pub struct Gates<'a> {
    words: Words<'a>,
    inputs: u16,
    count: u16,
    output: u16,
    // the literal that the next gate defines; it stops at the greatest number of its type
    due: u16,
    // the place behind the last line that was read
    behind: usize,
}

impl<'a> Gates<'a> {
    // The number of inputs.
    pub fn inputs(&self) -> u16
        ensures value { result ≡ self.now.inputs }
    {
        self.inputs
    }

    // The literal that is the output.
    pub fn output(&self) -> u16
        ensures value { result ≡ self.now.output }
    {
        self.output
    }
}
