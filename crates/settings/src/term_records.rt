// Terms as records, and the literals that they want.
ghost use Rattle.std.specs.Prelude.{◌≡◌, ◌-◌, ◌<◌, ◌≤◌, min, true, ◌++◌, length};
ghost use Rattle.literals.specs.Bits.{bit};
ghost use Rattle.literals.specs.Literals.{names};
ghost use Rattle.tables.specs.Tables.{items};
ghost use Rattle.settings.specs.TermRecords.{signed_at, wanted, with_want, with_wanted, record_of};

use super::{Term, literal_of};
use literals::{has_bit, names_one_of};
use tables::table::Table;

impl Term {
    // Places the literal of contact index + 1 of n last, if it is wanted closed or open.
    fn place_wanted(self, n: usize, index: usize, out: &mut Table<i8, 32>)
        requires contact { index < n }
        requires few { n ≤ 32 }
        requires room { length (items out.old) ≤ index }
        ensures placed { items out.new ≡ items out.old ++ signed_at index (bit self.closed (n - 1 - index)) (bit self.opened (n - 1 - index)) }
    {
        let weight = n - 1 - index;
        if has_bit(self.closed as u64, weight) {
            let _ = out.push(literal_of(index, true));
        } else if has_bit(self.opened as u64, weight) {
            let _ = out.push(literal_of(index, false));
        }
    }

    // The literals that it wants of n contacts, or of 32 at most, in contact order.
    pub fn literals(self, n: usize) -> Table<i8, 32>
        ensures listed { items result ≡ wanted (min n 32) self }
    {
        let count = n.min(32);
        let mut out = Table::new(0);
        for index in 0..count {
            self.place_wanted(count, index, &mut out);
        }
        out
    }

    fn want(self, n: usize, literal: i8) -> Self
        requires few { n ≤ 32 }
        requires named { names n literal ≡ true }
        ensures wanted { result ≡ with_want n self literal }
    {
        if literal > 0 {
            Term {
                closed: self.closed | (1 << (n - literal as usize)),
                opened: self.opened,
            }
        } else {
            Term {
                closed: self.closed,
                opened: self.opened | (1 << (n - 1 - (-(literal + 1)) as usize)),
            }
        }
    }

    // The record with what one literal wants besides; a literal that names none of n contacts adds nothing.
    fn with(self, n: usize, literal: i8) -> Self
        requires few { n ≤ 32 }
        ensures wanted { result ≡ with_wanted n self literal }
    {
        if names_one_of(n, literal) {
            self.want(n, literal)
        } else {
            self
        }
    }

    // The record of what the literals want of n contacts, or of 32 at most.
    pub fn from_literals(n: usize, literals: &[i8]) -> Self
        ensures wanted { result ≡ record_of (min n 32) literals.now }
    {
        let count = n.min(32);
        let mut term = Term {
            closed: 0,
            opened: 0,
        };
        for literal in literals {
            term = term.with(count, *literal);
        }
        term
    }
}
