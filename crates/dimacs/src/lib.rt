// Reads clause texts in DIMACS CNF form: comment lines, a heading `p cnf V C`, and C rules over V variables.
// Rules are read only from a text whose heading was accepted: `Opening::heading` spends the opening.
#![tactic(auto)]

ghost use Rattle.std.specs.Prelude.{◌≡◌};

mod body;
mod head;
mod literal;

use literals::LiteralSet;
use texts::Words;

// A text of which nothing is read yet. Clause texts have a type of their own for it, so that its heading gives the reader of rules.
#[derive(Drop)]
pub struct Opening<'a> {
    words: Words<'a>,
}

// A text whose heading was accepted: it has `count` rules over `vars` variables.
#[derive(Drop)]
pub struct Rules<'a> {
    words: Words<'a>,
    vars: u16,
    count: u16,
    // the place behind the last line that was read
    behind: usize,
}

// The rules of a clause text as they lie in a store, and how many variables the text has.
#[derive(Clone, Copy, PartialEq, Eq)]
pub struct LoadedRules<'a> {
    pub vars: usize,
    pub rules: &'a [LiteralSet],
}

impl<'a> Rules<'a> {
    // The number of variables.
    pub fn vars(&self) -> u16
        ensures value { result ≡ self.now.vars }
    {
        self.vars
    }
}
