// What is known of the variables of a network: of each nothing yet, or its value.
ghost use Rattle.std.specs.Prelude.{◌≡◌, ℕ, ◌+◌, ◌/◌, ◌<◌, ◌≤◌, Bool, false, None, Some, length, slice_index_or};
ghost use Rattle.std.specs.Iterator.{IsFinite};
ghost use Rattle.networks.specs.Networks.{no_gate};
ghost use Rattle.networks.specs.Circuits.{Obeys};
ghost use Rattle.implications.specs.Ternaries.{opposite, known, written, left_by, demanded, followed, step_at, assigned, taken_from, narrowed, Agree, Sound, Holds};

use super::{Consequence, Contradiction, infer};
use aiger::Gate;
use literals::has_bit;
use networks::{Circuit, readable};
use search::Assignment;

// Of variable 0, of up to 32 inputs and of up to 2,048 gates.
#[derive(Drop)]
pub struct Implied {
    pub values: [Option<bool>; 2081],
    pub ghost whole: { length values ≡ 2081 },
}

// What is known of a literal whose opposite is so.
fn opposite(value: Option<bool>) -> Option<bool>
    ensures opposite { result ≡ opposite value }
{
    value.map(|value| !value)
}

// What an assignment says of an input.
fn assigned(assignment: Assignment, index: u8) -> Option<bool>
    ensures assigned { result ≡ assigned assignment index }
{
    if has_bit(assignment.closed, index as usize) {
        Some(true)
    } else if has_bit(assignment.opened, index as usize) {
        Some(false)
    } else {
        None
    }
}

// Nothing is known.
fn nothing_known() -> [Option<bool>; 2081]
    ensures length { length result ≡ 2081 }
    ensures unknown { (v : ℕ) → slice_index_or result v None ≡ None }
{
    [None; 2081]
}

// What is known at first: variable 0 is false, and the inputs are as the assignment says.
// No iterator form is plainer: each index names an input of the assignment too.
fn first_values(circuit: Circuit<'_>, assignment: Assignment) -> [Option<bool>; 2081]
    ensures length { length result ≡ 2081 }
    ensures right { (V : ℕ → Bool) → V 0 ≡ false → ((k : ℕ) → k < circuit.entry.inputs → Agree (assigned assignment k) (V (k + 1))) → Sound result V }
{
    let mut values = nothing_known();
    values[0] = Some(false);
    for index in 0..circuit.inputs {
        values[index as usize + 1] = assigned(assignment, index);
    }
    values
}

// An assignment with what is known of one input more, unless that is decided.
fn take(assignment: Assignment, index: u8, value: Option<bool>) -> Assignment
    ensures taken { result ≡ taken_from assignment index value }
{
    match value {
        Some(closed) if !assignment.has_decided(index) => assignment.with(index, closed),
        _ => assignment,
    }
}

// The variable of the gate of an index.
fn gate_variable(circuit: Circuit<'_>, index: usize) -> u16
    requires within { index < length circuit.gates.now }
    ensures variable { result ≡ circuit.entry.inputs + 1 + index }
{
    circuit.inputs as u16 + 1 + index as u16
}

impl Implied {
    // What is known at first.
    pub(crate) fn at_first(circuit: Circuit<'_>, assignment: Assignment) -> Self
        ensures right { (V : ℕ → Bool) → V 0 ≡ false → ((k : ℕ) → k < circuit.entry.inputs → Agree (assigned assignment k) (V (k + 1))) → Sound result.values V }
    {
        Implied {
            values: first_values(circuit, assignment),
        }
    }

    // What is known of a literal.
    fn known(&self, literal: u16) -> Option<bool>
        requires within { literal / 2 < 2081 }
        ensures known { result ≡ known self.now.values literal }
    {
        let value = self.values[(literal / 2) as usize];
        if literal % 2 == 1 {
            opposite(value)
        } else {
            value
        }
    }

    // Notes the value of a literal.
    fn write(&mut self, literal: u16, value: bool)
        requires within { literal / 2 < 2081 }
        ensures written { self.new.values ≡ written self.old.values literal value }
    {
        let own = if literal % 2 == 1 { !value } else { value };
        self.values[(literal / 2) as usize] = Some(own);
    }

    // Notes that a literal is 1.
    pub(crate) fn demand(&mut self, literal: u16) -> Result<(), Contradiction>
        requires within { literal / 2 < 2081 }
        ensures demanded { left_by result self.new.values ≡ demanded self.old.values literal }
    {
        match self.known(literal) {
            Some(true) => Ok(()),
            Some(false) => Err(Contradiction),
            None => {
                self.write(literal, true);
                Ok(())
            }
        }
    }

    // Notes what follows at a gate, by the literals of the gate and its sides; answers whether that is anything.
    fn follow(
        &mut self,
        consequence: Consequence,
        out: u16,
        left: u16,
        right: u16,
    ) -> Result<bool, Contradiction>
        requires out { out / 2 < 2081 }
        requires left { left / 2 < 2081 }
        requires right { right / 2 < 2081 }
        ensures followed { left_by result self.new.values ≡ followed consequence self.old.values out left right }
    {
        match consequence {
            Consequence::Nothing => return Ok(false),
            Consequence::Contradiction => return Err(Contradiction),
            Consequence::OutZero => self.write(out, false),
            Consequence::OutOne => self.write(out, true),
            Consequence::LeftZero => self.write(left, false),
            Consequence::RightZero => self.write(right, false),
            Consequence::SidesOne => {
                self.write(left, true);
                self.write(right, true);
            }
        }
        Ok(true)
    }

    // Notes what follows at the gate of a variable.
    fn step(&mut self, variable: u16, gate: Gate) -> Result<bool, Contradiction>
        requires few { variable < 2081 }
        ensures stepped { left_by result self.new.values ≡ step_at self.old.values variable gate }
    {
        let out = 2 * variable;
        let left = readable(gate.left, variable as usize);
        let right = readable(gate.right, variable as usize);
        let follows = infer(self.known(out), self.known(left), self.known(right));
        self.follow(follows, out, left, right)
    }

    // The same at the gate of an index; where there is none, nothing.
    fn step_if_any(&mut self, circuit: Circuit<'_>, index: usize) -> Result<bool, Contradiction>
        ensures stepped { index < length circuit.entry.gates.now → left_by result self.new.values ≡ step_at self.old.values (circuit.entry.inputs + 1 + index) (slice_index_or circuit.entry.gates.now index no_gate) }
        ensures beyond { length circuit.entry.gates.now ≤ index → left_by result self.new.values ≡ Some self.old.values }
    {
        match circuit.gates.get(index) {
            Some(gate) => self.step(gate_variable(circuit, index), *gate),
            None => Ok(false),
        }
    }

    // The same, and what it finds is right.
    fn step_at(&mut self, circuit: Circuit<'_>, index: usize) -> Result<bool, Contradiction>
        ensures stepped { index < length circuit.entry.gates.now → left_by result self.new.values ≡ step_at self.old.values (circuit.entry.inputs + 1 + index) (slice_index_or circuit.entry.gates.now index no_gate) }
        ensures right { (V : ℕ → Bool) → Obeys (circuit.entry.inputs + 1) circuit.entry.gates.now V → Sound self.old.values V → Holds V result self.new.values }
    {
        self.step_if_any(circuit, index)
    }

    // One pass over the gates in some order; answers whether more is known. The order is one of indices, since an iterator of gates would have to promise of each whose gate it is.
    fn sweep<I: Iterator<Item = usize> + Drop>(
        &mut self,
        circuit: Circuit<'_>,
        order: I,
    ) -> Result<bool, Contradiction>
        requires can { I.can_next order }
        requires ends { IsFinite (I.remaining order) }
        ensures right { (V : ℕ → Bool) → Obeys (circuit.entry.inputs + 1) circuit.entry.gates.now V → Sound self.old.values V → Holds V result self.new.values }
    {
        let mut changed = false;
        for index in order {
            if self.step_at(circuit, index)? {
                changed = true;
            }
        }
        Ok(changed)
    }

    // Passes over the gates, from the inputs to the output and back, until nothing changes; at most so many, since each may change little.
    pub(crate) fn propagate(&mut self, circuit: Circuit<'_>) -> Result<(), Contradiction>
        ensures right { (V : ℕ → Bool) → Obeys (circuit.entry.inputs + 1) circuit.entry.gates.now V → Sound self.old.values V → Holds V result self.new.values }
    {
        for _ in 0..16 {
            if !self.sweep(circuit, 0..circuit.gates.len())? {
                break;
            }
            if !self.sweep(circuit, (0..circuit.gates.len()).rev())? {
                break;
            }
        }
        Ok(())
    }

    // The assignment with what is known of the inputs. Each index names an input of the assignment too.
    pub fn narrowed(&self, inputs: u8, assignment: Assignment) -> Assignment
        ensures narrowed { result ≡ narrowed inputs self.now.values assignment }
    {
        let mut narrower = assignment;
        for index in 0..inputs {
            narrower = take(narrower, index, self.values[index as usize + 1]);
        }
        narrower
    }
}
