// What a network computes, gate by gate: with Booleans at one setting, or with words at a setting in each bit.
ghost use Rattle.std.specs.Prelude.{◌≡◌, ◌+◌, ◌≤◌, false, not, ◌&&◌, length, slice_index_or, bit_and, bit_xor};
ghost use Rattle.tables.specs.Tables.{items};
ghost use Rattle.networks.specs.Evaluation.{literal_from, gate_from, extended};

use aiger::Gate;
use tables::table::Table;

// What a variable can have for its value.
pub trait Value: Copy {
    // that of a variable without a value
    ghost zero: { Self };

    ghost opposite: { Self → Self };

    ghost both: { Self → Self → Self };

    // The value that is false.
    fn of_zero() -> Self
        ensures zero { result ≡ zero };

    // The value of the opposite literal.
    fn negated(self) -> Self
        ensures opposite { result ≡ opposite self };

    // The value of a gate with these sides.
    fn and(self, other: Self) -> Self
        ensures both { result ≡ both self other };
}

impl Value for bool {
    ghost zero = { false };

    ghost opposite = { not };

    ghost both = { λ p q. p && q };

    fn of_zero() -> Self {
        false
    }

    fn negated(self) -> Self {
        !self
    }

    fn and(self, other: Self) -> Self {
        self && other
    }
}

impl Value for u64 {
    ghost zero = { 0 };

    ghost opposite = { λ w. bit_xor w 0xffff_ffff_ffff_ffff };

    ghost both = { λ w v. bit_and w v };

    fn of_zero() -> Self {
        0
    }

    fn negated(self) -> Self {
        self ^ 0xffff_ffff_ffff_ffff
    }

    fn and(self, other: Self) -> Self {
        self & other
    }
}

// The value of a variable; one without a value reads as false.
fn variable_value<V: Value>(values: &[V], variable: usize) -> V
    ensures value { result ≡ slice_index_or values.now variable V.zero }
{
    match values.get(variable) {
        Some(value) => *value,
        None => V::of_zero(),
    }
}

// The value of a literal.
pub fn value_of<V: Value>(values: &[V], literal: u16) -> V
    ensures value { result ≡ literal_from V.zero V.opposite V.both values.now literal }
{
    let value = variable_value(values, (literal / 2) as usize);
    if literal % 2 == 1 {
        value.negated()
    } else {
        value
    }
}

// The value of a gate.
fn gate_value<V: Value>(values: &[V], gate: Gate) -> V
    ensures value { result ≡ gate_from V.zero V.opposite V.both values.now gate }
{
    value_of(values, gate.left).and(value_of(values, gate.right))
}

// The values of the gates, one behind the other.
pub fn follow<V: Value>(values: &mut Table<V, 2081>, gates: &[Gate])
    requires room { length (items values.old) + length gates.now ≤ 2081 }
    ensures followed { items values.new ≡ extended V.zero V.opposite V.both (items values.old) gates.now }
{
    for gate in gates {
        let value = gate_value(values.as_slice(), *gate);
        let _ = values.push(value);
    }
}
