// What a network of gates computes, gate by gate.
#![tactic(auto)]

ghost use Rattle.std.specs.Prelude.{◌≡◌, ◌+◌, ◌≤◌, min, false, ◌∷◌, length, slice_index_or};
ghost use Rattle.tables.specs.Tables.{items};
ghost use Rattle.settings.specs.Readings.{reading};
ghost use Rattle.networks.specs.Networks.{literal_value, gate_value, values_from, network_allows, first_gates, NetworkLaw};
ghost use Rattle.networks.specs.Circuits.{readable};

use aiger::Gate;
use evaluation::{follow, value_of};
use literals::has_bit;
use settings::Setting;
use tables::table::Table;

pub mod evaluation;
mod lent_gates;

pub use lent_gates::Circuit;

// A network has at most 32 inputs and 2,048 gates, and variable 0, which is false.
const MOST_INPUTS: usize = 32;

const MOST_GATES: usize = 2_048;

// The records of a network: the first 2,048, if there are more.
fn first_gates<'a>(gates: &'a [Gate]) -> &'a [Gate]
    ensures first { result.now ≡ first_gates gates.now }
{
    &gates[0..gates.len().min(MOST_GATES)]
}

// A literal as it is read where only the first variables have values: that of a variable without one is a constant, since it reads as false.
pub fn readable(literal: u16, variables: usize) -> u16
    ensures literal { result ≡ readable variables literal }
{
    if ((literal / 2) as usize) < variables {
        literal
    } else {
        literal % 2
    }
}

// The values of variable 0 and of the inputs.
// No iterator form is plainer: each index picks a bit of the setting.
fn input_values(inputs: usize, setting: Setting) -> Table<bool, 2081>
    requires few { inputs ≤ 32 }
    ensures inputs { items result ≡ false ∷ reading inputs setting }
{
    let mut values = Table::new(false);
    let _ = values.push(false);
    for index in 0..inputs {
        let _ = values.push(has_bit(setting.closed as u64, index));
    }
    values
}

// The value of the output.
fn output_value(gates: &[Gate], inputs: usize, output: u16, setting: Setting) -> bool
    requires inputs { inputs ≤ 32 }
    requires gates { length gates.now ≤ 2048 }
    ensures output { result ≡ network_allows gates.now output (reading inputs setting) }
{
    let mut values = input_values(inputs, setting);
    follow(&mut values, gates);
    value_of(values.as_slice(), output)
}

// Whether the network of the first 2,048 gates allows a setting of at most 32 inputs: its output is 1.
pub fn allows(gates: &[Gate], inputs: usize, output: u16, setting: Setting) -> bool
    ensures output { result ≡ network_allows (first_gates gates.now) output (reading (min inputs 32) setting) }
{
    output_value(first_gates(gates), inputs.min(MOST_INPUTS), output, setting)
}

// The values of all variables are those in which each gate is the AND of its sides, and there is no other way.
pub fn network_law()
    ensures output_is_determined { NetworkLaw }
{}
