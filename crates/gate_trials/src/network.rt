// Small networks, and their values by a plain look.
use aiger::Gate;
use settings::Setting;
use tables::table::Table;

const MOST_GATES: usize = 48;

// At most 8 inputs and 48 gates.
#[derive(Drop)]
pub struct Network {
    pub inputs: u8,
    pub gates: Table<Gate, 48>,
    pub output: u16,
}

// A literal's value, where bit k of the values is that of variable k.
fn value_of(values: u64, literal: u16) -> bool {
    let variable = literal / 2;
    let value = variable < 64 && (values >> variable) & 1 == 1;
    value != (literal % 2 == 1)
}

impl Network {
    pub fn empty(inputs: u8) -> Self {
        Network {
            inputs: inputs.min(8),
            gates: Table::new(Gate { left: 0, right: 0 }),
            output: 0,
        }
    }

    // The literal of the next gate.
    pub fn next_literal(&self) -> u16 {
        2 * (u16::from(self.inputs) + 1 + self.gates.len().min(MOST_GATES) as u16)
    }

    // The literal of a gate more.
    pub fn push(&mut self, gate: Gate) -> u16 {
        let literal = self.next_literal();
        let _ = self.gates.push(gate);
        literal
    }

    fn and(&mut self, left: u16, right: u16) -> u16 {
        self.push(Gate { left, right })
    }

    fn or(&mut self, left: u16, right: u16) -> u16 {
        self.and(left ^ 1, right ^ 1) ^ 1
    }

    fn xor(&mut self, left: u16, right: u16) -> u16 {
        let some = self.or(left, right);
        let both = self.and(left, right);
        self.and(some, both ^ 1)
    }

    // An odd number of 6 inputs is 1.
    pub fn parity() -> Self {
        let mut network = Network::empty(6);
        let mut odd = 0;
        for input in 1..7u16 {
            odd = network.xor(odd, 2 * input);
        }
        network.output = odd;
        network
    }

    // At least 3 of 5 inputs are 1: counted up in three literals, the last of which says that 3 were seen.
    pub fn majority() -> Self {
        let mut network = Network::empty(5);
        let mut one = 0;
        let mut two = 0;
        let mut three = 0;
        for input in 1..6u16 {
            let third = network.and(two, 2 * input);
            three = network.or(three, third);
            let second = network.and(one, 2 * input);
            two = network.or(two, second);
            one = network.or(one, 2 * input);
        }
        network.output = three;
        network
    }

    // The number of inputs 1 to 3 is greater than that of inputs 4 to 6, the first of each the highest.
    pub fn comparator() -> Self {
        let mut network = Network::empty(6);
        let mut greater = 0;
        let mut equal = 1;
        for place in 1..4u16 {
            let own = 2 * place;
            let other = 2 * (place + 3);
            let above = network.and(own, other ^ 1);
            let here = network.and(equal, above);
            greater = network.or(greater, here);
            let differs = network.xor(own, other);
            equal = network.and(equal, differs ^ 1);
        }
        network.output = greater;
        network
    }

    // The numbers of inputs 1, 2 and of inputs 3, 4 add up to 3.
    pub fn adder() -> Self {
        let mut network = Network::empty(4);
        let low = network.xor(4, 8);
        let carry = network.and(4, 8);
        let high = network.xor(2, 6);
        let sum = network.xor(high, carry);
        let over = network.and(high, carry);
        let both = network.and(2, 6);
        let beyond = network.or(over, both);
        let within = network.and(sum, beyond ^ 1);
        network.output = network.and(low, within);
        network
    }

    // The value of the output at a setting.
    pub fn allows(&self, setting: Setting) -> bool {
        let mut values = (u64::from(setting.closed) << 1) & 0x1fe;
        let mut variable = self.inputs;
        for gate in self.gates.as_slice() {
            variable = variable.saturating_add(1);
            if variable < 64 && value_of(values, gate.left) && value_of(values, gate.right) {
                values |= 1 << variable;
            }
        }
        value_of(values, self.output)
    }
}
