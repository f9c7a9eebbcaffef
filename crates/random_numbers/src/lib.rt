// Pseudo-random numbers and literals for trials.
#![tactic(auto)]

ghost use Rattle.std.specs.Prelude.{◌≡◌, ◌<◌, ◌≤◌, true, length};
ghost use Rattle.std.specs.List.{list_all};
ghost use Rattle.tables.specs.Tables.{items};
ghost use Rattle.literals.specs.Literals.{names};

use tables::table::Table;

// A seeded source of numbers, the same in each run.
#[derive(Drop)]
pub struct Random {
    state: u64,
}

impl Random {
    pub fn seeded() -> Self
        ensures seed { result.state ≡ 0x2545_f491_4f6c_dd1d }
    {
        Random {
            state: 0x2545_f491_4f6c_dd1d,
        }
    }

    // A number below the limit.
    pub fn below(&mut self, limit: u16) -> u16
        requires positive { 0 < limit }
        ensures below { result < limit }
    {
        self.state ^= self.state << 13;
        self.state ^= self.state >> 7;
        self.state ^= self.state << 17;
        ((self.state >> 32) % u64::from(limit)) as u16
    }

    // A literal of one of the variables.
    pub fn literal(&mut self, variables: u8) -> i8
        requires positive { 0 < variables }
        requires few { variables ≤ 64 }
        ensures named { names variables result ≡ true }
    {
        let literal = (self.below(u16::from(variables)) + 1) as i8;
        if self.below(2) == 0 {
            literal
        } else {
            -literal
        }
    }

    // So many literals.
    pub fn literals<const N: usize>(&mut self, variables: u8) -> Table<i8, N>
        requires positive { 0 < variables }
        requires few { variables ≤ 64 }
        ensures as_many { length (items result) ≡ N }
        ensures named { list_all (names variables) (items result) ≡ true }
    {
        let mut literals = Table::new(0);
        for _place in 0..N {
            let _ = literals.push(self.literal(variables));
        }
        literals
    }
}
