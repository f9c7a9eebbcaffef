// A network of a size that fits a fixed room.
ghost use Rattle.std.specs.Prelude.{◌≤◌, length};

use super::{first_gates, output_value};
use aiger::Gate;
use settings::Setting;
use solver::ContactCount;

// A network with lent gates. Its inputs are the contacts.
#[derive(Clone, Copy)]
pub struct Circuit<'a> {
    pub gates: &'a [Gate],
    pub inputs: u8,
    pub output: u16,
    pub ghost few_inputs: { inputs ≤ 32 },
    pub ghost few_gates: { length gates.now ≤ 2048 },
}

impl<'a> Circuit<'a> {
    ghost use Rattle.std.specs.Prelude.{◌≡◌};
    ghost use Rattle.networks.specs.Networks.{first_gates};

    // The network of the first 2,048 gates.
    pub fn new(gates: &'a [Gate], count: ContactCount, output: u16) -> Self
        ensures gates { result.gates.now ≡ first_gates gates.now }
        ensures inputs { result.inputs ≡ count.contacts }
        ensures output { result.output ≡ output }
    {
        Circuit {
            gates: first_gates(gates),
            inputs: count.contacts,
            output,
        }
    }
}

impl Circuit<'_> {
    ghost use Rattle.std.specs.Prelude.{◌≡◌};
    ghost use Rattle.settings.specs.Readings.{reading};
    ghost use Rattle.networks.specs.Circuits.{circuit_allows};

    // Whether it allows a setting: its output is 1.
    pub fn allows(self, setting: Setting) -> bool
        ensures output { result ≡ circuit_allows self.entry (reading self.entry.inputs setting) }
    {
        output_value(self.gates, self.inputs as usize, self.output, setting)
    }
}
