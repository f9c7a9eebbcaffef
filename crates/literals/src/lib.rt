// Literals, and sets of them as two masks.
#![tactic(auto)]

ghost use Rattle.std.specs.Prelude.{◌≡◌, ◌%◌, true, not, Some, ◌==◌};
ghost use Rattle.std.specs.List.{position};
ghost use Rattle.literals.specs.Literals.{names, first_unnamed, no_literals, inserted, with_literal, set_of, has};
ghost use Rattle.literals.specs.Bits.{bit};
ghost use Rattle.literals.specs.Shown.{spaced_text};

use std::fmt;

// A set of literals over at most 64 variables: bit k - 1 of `closed` stands for the literal k, and bit k - 1 of `opened` for -k.
// Lists of the same literals, in any order or number, make one set, so a rule or a bar is such a set.
#[derive(Clone, Copy, PartialEq, Eq)]
pub struct LiteralSet {
    pub closed: u64,
    pub opened: u64,
}

// Whether a literal names one of n variables: k and -k name variable k, and 0 names none.
pub fn names_one_of(n: usize, literal: i8) -> bool
    ensures named { result ≡ names n literal }
{
    if literal > 0 {
        literal as usize <= n
    } else if literal < 0 {
        (-(literal as i16)) as usize <= n
    } else {
        false
    }
}

// The first place at which a literal names none of n variables.
fn unnamed_place(n: usize, literals: &[i8]) -> Option<usize>
    ensures place { result ≡ position (λ l. not (names n l)) literals.now }
{
    literals
        .iter()
        .position(|literal| !names_one_of(n, *literal))
}

// The place of the first literal that names none of n variables.
#[tactic(auto, using(crate::proofs::Places::found_unnamed))]
pub fn find_unnamed(n: usize, literals: &[i8]) -> Option<usize>
    ensures first { result ≡ first_unnamed n literals.now }
{
    unnamed_place(n, literals)
}

fn is_odd(number: u64) -> bool
    ensures odd { result ≡ (number % 2 == 1) }
{
    number % 2 == 1
}

// Whether the bit of that index is set; one beyond 64 is not.
pub fn has_bit(mask: u64, index: usize) -> bool
    ensures set { result ≡ bit mask index }
{
    index < 64 && is_odd(mask >> index)
}

impl LiteralSet {
    pub fn empty() -> Self
        ensures empty { result ≡ no_literals }
    {
        LiteralSet {
            closed: 0,
            opened: 0,
        }
    }

    fn insert(self, literal: i8) -> Self
        requires named { names 64 literal ≡ true }
        ensures inserted { result ≡ inserted self literal }
    {
        if literal > 0 {
            LiteralSet {
                closed: self.closed | (1 << (literal - 1) as u32),
                opened: self.opened,
            }
        } else {
            LiteralSet {
                closed: self.closed,
                opened: self.opened | (1 << (-(literal + 1)) as u32),
            }
        }
    }

    // The set with one literal more; a literal that names none of 64 variables adds nothing.
    pub fn with(self, literal: i8) -> Self
        ensures added { result ≡ with_literal self literal }
    {
        if names_one_of(64, literal) {
            self.insert(literal)
        } else {
            self
        }
    }

    // Whether the literal is in the set that wants variable index + 1 closed, or open.
    pub fn has(self, index: usize, closed: bool) -> bool
        ensures held { result ≡ has self index closed }
    {
        if closed {
            has_bit(self.closed, index)
        } else {
            has_bit(self.opened, index)
        }
    }
}

// The set of the literals of a list.
impl From<&[i8]> for LiteralSet {
    ghost from_gives = { λ literals set. set ≡ set_of literals.now };

    fn from(literals: &[i8]) -> Self {
        literals
            .iter()
            .fold(LiteralSet::empty(), |set, literal| set.with(*literal))
    }
}

// Literals that print one behind the other, each with a space before it.
#[derive(Clone, Copy)]
pub struct Spaced<'a> {
    pub literals: &'a [i8],
}

impl fmt::Display for Spaced<'_> {
    ghost output = { λ spaced. Some (spaced_text spaced.literals.now) };

    fn fmt<W: fmt::Write>(&self, f: &mut fmt::Formatter<W>) -> fmt::Result {
        for literal in self.literals {
            write!(f, " {literal}")?;
        }
        Ok(())
    }
}
