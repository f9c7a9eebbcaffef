// Loads a clause text into a store that the caller brings: the store's front holds the rules then.
#![tactic(auto)]

ghost use Rattle.std.specs.Prelude.{◌≡◌, ◌≤◌, length, take};

use dimacs::LoadedRules;
use literals::LiteralSet;

mod calls;
mod passes;

pub use calls::load;
pub use passes::measure;

// How large a clause text is: its numbers of variables and of rules.
#[derive(Clone, Copy)]
pub struct Size {
    pub vars: usize,
    pub count: usize,
}

impl Size {
    // The rules of a text of this size, where they lie at the front of a store.
    pub fn rules_in(self, store: &[LiteralSet]) -> LoadedRules<'_>
        requires room { self.count ≤ length store.now }
        ensures vars { result.vars ≡ self.vars }
        ensures rules { result.rules.now ≡ take self.count store.now }
    {
        LoadedRules {
            vars: self.vars,
            rules: &store[0..self.count],
        }
    }
}
