// A search for a setting that passes a test: it takes what is forced, else tries open, then closed, then goes back.
#![tactic(auto)]

ghost use Rattle.std.specs.Prelude.{◌≡◌, ℕ, ◌<◌, ◌≤◌, Bool, List, length};
ghost use Rattle.search.specs.Assignments.{decided, with_value, low_mask, clashing, from_set, low_half};
ghost use Rattle.search.specs.Search.{depth, branches, Says, Answer};

use literals::{LiteralSet, has_bit};
use settings::Setting;

// What is decided so far: variable k + 1 closed where bit k of `closed` is set, and open where bit k of `opened` is.
#[derive(Clone, Copy, PartialEq, Eq)]
pub struct Assignment {
    pub closed: u64,
    pub opened: u64,
}

// The mask of the first variables, of which a mask has 64.
pub fn mask_below(variables: u8) -> u64
    ensures mask { result ≡ low_mask variables }
{
    if variables < 64 {
        (1 << variables) - 1
    } else {
        u64::MAX
    }
}

// What a set of literals decides.
impl From<LiteralSet> for Assignment {
    ghost from_gives = { λ s a. a ≡ from_set s };

    fn from(literals: LiteralSet) -> Self {
        Assignment {
            closed: literals.closed,
            opened: literals.opened,
        }
    }
}

// The setting of the first 32 variables, with those open that are not decided closed.
impl From<Assignment> for Setting {
    ghost from_gives = { λ a s. s ≡ low_half a };

    fn from(assignment: Assignment) -> Self {
        Setting {
            closed: (assignment.closed & 0xffff_ffff) as u32,
        }
    }
}

impl Assignment {
    // Whether a variable is decided.
    pub fn has_decided(self, variable: u8) -> bool
        ensures decided { result ≡ decided self variable }
    {
        has_bit(self.closed, variable as usize) || has_bit(self.opened, variable as usize)
    }

    // One variable more decided; one that a mask does not have changes nothing.
    pub fn with(self, variable: u8, closed: bool) -> Self
        ensures decided { result ≡ with_value self variable closed }
    {
        if variable >= 64 {
            self
        } else if closed {
            Assignment {
                closed: self.closed | (1 << variable),
                opened: self.opened,
            }
        } else {
            Assignment {
                closed: self.closed,
                opened: self.opened | (1 << variable),
            }
        }
    }

    // Whether one of the first variables is decided both ways.
    fn clashes(self, variables: u8) -> bool
        ensures clashing { result ≡ clashing variables self }
    {
        self.closed & self.opened & mask_below(variables) != 0
    }
}

// What a look at an assignment found. Variables have an index here, from 0.
#[derive(Clone, Copy)]
pub enum Found {
    // no good setting agrees with the assignment
    Conflict,
    // every good setting that agrees with the assignment gives an undecided variable this value
    Forced { variable: u8, closed: bool },
    // every good setting that agrees with the assignment agrees with this one too, which decides more
    Narrowed(Assignment),
    // the assignment, with the rest open, is a good setting
    Met,
    // this assignment, with the rest open, is a good setting, and agrees with the one that was looked at
    MetBy(Assignment),
    // nothing is forced: an undecided variable to try
    Split(u8),
}

// Whatever can look at an assignment. The search looks for a good setting.
pub trait Look {
    // the number of variables
    ghost size: { Self → ℕ };

    // the good settings, as a test on settings of all variables
    ghost good: { Self → List Bool → Bool };

    // a mask has 64 variables
    ghost few: { (s : Self) → size s ≤ 64 };

    // The number of variables.
    fn variables(&self) -> u8
        ensures count { result ≡ size self.now };

    // What is found at an assignment.
    fn look(&self, assignment: Assignment) -> Found
        ensures says { Says (size self.now) (good self.now) assignment result };
}

// No choice is pending, or n + 1 choices are: each was tried open, and closed is still to try. The machine below matches this state and what a look found,
// so its two states have names; the pending choices lie in an array of fixed length, since a search takes no memory.
#[derive(Clone, Copy)]
enum State {
    Free,
    Tried(usize),
}

impl State {
    fn with_pending(count: usize) -> Self
        ensures count { depth result ≡ count }
    {
        if count == 0 {
            State::Free
        } else {
            State::Tried(count - 1)
        }
    }

    fn pending(self) -> usize
        requires few { depth self ≤ 64 }
        ensures count { result ≡ depth self }
    {
        match self {
            State::Free => 0,
            State::Tried(last) => last + 1,
        }
    }
}

// The two assignments of a choice: the first to try, and the one that stays pending.
#[derive(Clone, Copy)]
struct Branches {
    first: Assignment,
    pending: Assignment,
}

// Open is tried first, then closed.
fn branch(assignment: Assignment, variable: u8) -> Branches
    ensures branches { result ≡ branches assignment variable }
{
    Branches {
        first: assignment.with(variable, false),
        pending: assignment.with(variable, true),
    }
}

fn filled_with(assignment: Assignment) -> [Assignment; 64]
    ensures length { length result ≡ 64 }
{
    [assignment; 64]
}

// A good setting that agrees with what is decided at the start, as an assignment whose rest is open; none exactly where there is none.
pub fn find<L: Look>(look: &L, start: Assignment) -> Option<Assignment>
    ensures answer { Answer (L.size look.now) (L.good look.now) start result }
{
    if start.clashes(look.variables()) {
        return None;
    }
    let mut pending = filled_with(start);
    let mut state = State::Free;
    let mut current = start;
    'machine: loop {
        let found = look.look(current);
        match (state, found) {
            (_, Found::Met) => return Some(current),
            (_, Found::MetBy(good)) => return Some(good),
            (_, Found::Narrowed(narrower)) => current = narrower,
            (_, Found::Forced { variable, closed }) => current = current.with(variable, closed),
            (State::Free, Found::Conflict) => return None,
            (State::Tried(last), Found::Conflict) => {
                current = pending[last];
                state = State::with_pending(last);
            }
            (_, Found::Split(variable)) => {
                let count = state.pending();
                let Branches {
                    first,
                    pending: second,
                } = branch(current, variable);
                pending[count] = second;
                current = first;
                state = State::Tried(count);
            }
        }
    }
}
