// Settings of contacts and the tests on them, and terms as they are written.
#![tactic(auto)]

ghost use Rattle.std.specs.Prelude.{◌≡◌, ◌<◌, ◌≤◌, min, false, not, slice_index_or};
ghost use Rattle.std.specs.List.{list_any, list_all, range_with_len};
ghost use Rattle.literals.specs.Bits.{bit};
ghost use Rattle.literals.specs.Literals.{has};
ghost use Rattle.tables.specs.Tables.{items};
ghost use Rattle.settings.specs.Settings.{agrees, met, fits, meets, covers, literal, literals};
ghost use Rattle.settings.specs.Readings.{reading, setting_of};
ghost use Rattle.settings.specs.TermRecords.{record_covers};
ghost use Rattle.settings.specs.Laws.{SetsLaw, SettingLaw};

use literals::{LiteralSet, has_bit};
use tables::table::Table;

mod term_records;

// A contact is open or closed, and contacts are numbered from 1 to n, with n at most 32. A setting says open or closed for each:
// bit k - 1 of `closed` is set where contact k is closed.
#[derive(Clone, Copy, PartialEq, Eq)]
pub struct Setting {
    pub closed: u32,
}

// A term as it is written: the sum of the weights 2 ^ (n - k) of the contacts k that it wants closed, and of those that it wants open.
// It covers the settings that agree with all that it wants.
#[derive(Clone, Copy, PartialEq, Eq)]
pub struct Term {
    pub closed: u32,
    pub opened: u32,
}

impl Term {
    // Whether it covers the setting of that number.
    pub fn covers(self, number: u32) -> bool
        ensures covered { result ≡ record_covers self number }
    {
        number & self.closed == self.closed && number & self.opened == 0
    }
}

impl Setting {
    // Whether contact index + 1 of n is closed; a contact beyond n or beyond 32 is not.
    fn is_closed(self, n: usize, index: usize) -> bool
        ensures closed { result ≡ slice_index_or (reading n self) index false }
    {
        index < n && has_bit(self.closed as u64, index)
    }

    // Whether a setting of n contacts agrees with a literal.
    pub fn agrees(self, n: usize, literal: i8) -> bool
        ensures agreement { result ≡ agrees (reading n self) literal }
    {
        if literal > 0 {
            self.is_closed(n, (literal - 1) as usize)
        } else if literal < 0 {
            !self.is_closed(n, (-(literal + 1)) as usize)
        } else {
            false
        }
    }

    // Whether it agrees with one of the literals.
    fn agrees_with_any(self, n: usize, literals: &[i8]) -> bool
        ensures any { result ≡ list_any (agrees (reading n self)) literals.now }
    {
        literals.iter().any(|literal| self.agrees(n, *literal))
    }

    // Whether it meets a rule: it agrees with at least one of the literals.
    #[tactic(auto, using(crate::proofs::Scans::met_by_any))]
    pub fn meets(self, n: usize, rule: &[i8]) -> bool
        ensures met { result ≡ met rule.now (reading n self) }
    {
        self.agrees_with_any(n, rule)
    }

    // The same with all of the literals.
    fn agrees_with_all(self, n: usize, literals: &[i8]) -> bool
        ensures all { result ≡ list_all (agrees (reading n self)) literals.now }
    {
        literals.iter().all(|literal| self.agrees(n, *literal))
    }

    // Whether it agrees with all the literals.
    #[tactic(auto, using(crate::proofs::Scans::fits_by_all))]
    pub fn fits(self, n: usize, literals: &[i8]) -> bool
        ensures agreement { result ≡ fits literals.now (reading n self) }
    {
        self.agrees_with_all(n, literals)
    }

    // Whether one of the first contacts is as a set of literals wants it.
    fn any_held(self, n: usize, set: LiteralSet) -> bool
        ensures any { result ≡ list_any (λ k. has set k (bit self.closed k)) (range_with_len 0 n) }
    {
        (0..n).any(|index| set.has(index, has_bit(self.closed as u64, index)))
    }

    // Whether none of the first contacts is as the opposite literals want it.
    fn none_opposed(self, n: usize, set: LiteralSet) -> bool
        ensures all { result ≡ list_all (λ k. not (has set k (not (bit self.closed k)))) (range_with_len 0 n) }
    {
        (0..n).all(|index| !set.has(index, !has_bit(self.closed as u64, index)))
    }

    // Whether it meets a rule that is the set of its literals.
    pub fn meets_set(self, n: usize, rule: LiteralSet) -> bool
        ensures met { result ≡ meets rule (reading n self) }
    {
        self.any_held(n, rule)
    }

    // Whether a bar that is the set of its literals covers it: none of them is opposed by a contact.
    pub fn is_covered(self, n: usize, bar: LiteralSet) -> bool
        ensures covered { result ≡ covers bar (reading n self) }
    {
        self.none_opposed(n, bar)
    }

    // The literals of the first contacts, in contact order.
    fn first_literals(self, count: usize) -> Table<i8, 32>
        requires few { count ≤ 32 }
        ensures listed { items result ≡ literals 0 (reading count self) }
    {
        let mut out = Table::new(0);
        for index in 0..count {
            let _ = out.push(literal_of(index, self.is_closed(32, index)));
        }
        out
    }

    // The literals of a setting of n contacts, in contact order.
    pub fn literals(self, n: usize) -> Table<i8, 32>
        ensures listed { items result ≡ literals 0 (reading (min n 32) self) }
    {
        self.first_literals(n.min(32))
    }
}

// The setting in which the contacts are closed that the literals want closed.
impl From<&[i8]> for Setting {
    ghost from_gives = { λ literals setting. setting ≡ setting_of literals.now };

    fn from(literals: &[i8]) -> Self {
        let set = LiteralSet::from(literals);
        Setting {
            closed: (set.closed & 0xffff_ffff) as u32,
        }
    }
}

// The literal that wants contact index + 1 closed, or open.
pub fn literal_of(index: usize, closed: bool) -> i8
    requires few { index < 32 }
    ensures agreeing { result ≡ literal index closed }
{
    let literal = (index + 1) as i8;
    if closed { literal } else { -literal }
}

// A rule or a bar as the set of its literals says what their list says.
pub fn sets_law()
    ensures sets_say_what_lists_say { SetsLaw }
{}

// The literals of a setting make it again.
pub fn setting_law()
    ensures literals_make_setting { SettingLaw }
{}
