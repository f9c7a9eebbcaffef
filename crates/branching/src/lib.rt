// The choice of an input to try next. Of the way to it nothing is promised; of the choice only that it is undecided.
#![tactic(auto)]

ghost use Rattle.std.specs.Prelude.{◌≤◌, false};
ghost use Rattle.rules.specs.Rules.{Choice};

use aiger::Gate;
use implications::Implied;
use networks::Circuit;
use search::Assignment;

// What a gate without a cause asks for.
const WHOLE: u32 = 65_536;

// How much is asked of each variable: of variable 0, of up to 32 inputs and of up to 2,048 gates.
#[derive(Drop)]
struct Demands {
    asked: [u32; 2081],
}

// Whether nothing is known of a literal.
fn is_unknown(known: &Implied, literal: u16) -> bool {
    matches!(known.values.get((literal / 2) as usize), Some(None))
}

// Whether a gate is known to be 0 while nothing is known of its sides, so that it has no cause yet.
fn is_unjustified(known: &Implied, variable: usize, gate: Gate) -> bool {
    matches!(known.values.get(variable), Some(Some(false)))
        && is_unknown(known, gate.left)
        && is_unknown(known, gate.right)
}

impl Demands {
    // Nothing is asked.
    fn none() -> Self {
        Demands { asked: [0; 2081] }
    }

    // How much is asked of a variable.
    fn of(&self, variable: usize) -> u32 {
        self.asked.get(variable).copied().unwrap_or(0)
    }

    // Asks more of the variable of a literal.
    fn add(&mut self, literal: u16, share: u32) {
        if let Some(asked) = self.asked.get_mut((literal / 2) as usize) {
            *asked = asked.saturating_add(share);
        }
    }

    // A gate hands on what is asked of it to the sides that nothing is known of, half to each where those are both.
    fn hand_on(&mut self, known: &Implied, gate: Gate, asked: u32) {
        let left = is_unknown(known, gate.left);
        let right = is_unknown(known, gate.right);
        let share = if left && right { asked / 2 } else { asked };
        if left {
            self.add(gate.left, share);
        }
        if right {
            self.add(gate.right, share);
        }
    }

    // The side that nothing is known of, and of two such sides the one of which more is asked.
    fn side(&self, known: &Implied, gate: Gate) -> usize {
        let left = (gate.left / 2) as usize;
        let right = (gate.right / 2) as usize;
        if !is_unknown(known, gate.left) {
            right
        } else if is_unknown(known, gate.right) && self.of(left) < self.of(right) {
            right
        } else {
            left
        }
    }

    // The variable to which such sides lead back from the gate of an index: an input, if all is well.
    fn trace(&self, known: &Implied, gates: &[Gate], inputs: usize, index: usize) -> usize
        requires few { inputs ≤ 255 }
    {
        let mut variable = (inputs + 1).saturating_add(index);
        for _ in 0..gates.len() {
            if variable <= inputs || variable - inputs > gates.len() {
                break;
            }
            variable = self.side(known, gates[variable - inputs - 1]);
        }
        variable
    }
}

// Follows what is asked from the last gate that has no cause yet to an input, or where that leads; none where every gate has its cause, and then nothing is asked.
fn hint(known: &Implied, gates: &[Gate], inputs: usize) -> Option<usize>
    requires few { inputs ≤ 255 }
{
    let mut backwards = gates.iter().enumerate().rev();
    let (last, gate) = backwards.find(|(index, gate)| {
        is_unjustified(known, (inputs + 1).saturating_add(*index), **gate)
    })?;
    let mut demands = Demands::none();
    demands.hand_on(known, *gate, WHOLE);
    for (index, gate) in backwards {
        let variable = (inputs + 1).saturating_add(index);
        let mut asked = demands.of(variable);
        if is_unjustified(known, variable, *gate) {
            asked = asked.saturating_add(WHOLE);
        }
        if asked > 0 {
            demands.hand_on(known, *gate, asked);
        }
    }
    Some(demands.trace(known, gates, inputs, last))
}

// An undecided input that bears on a gate without a cause, if there is one, among any gates of which that much is known.
pub fn choose_among(
    known: &Implied,
    gates: &[Gate],
    inputs: u8,
    assignment: Assignment,
) -> Option<u8>
    ensures choice { Choice inputs assignment false result }
{
    // Input k is variable k + 1.
    let index = u8::try_from(hint(known, gates, inputs as usize)?.checked_sub(1)?).ok()?;
    if index < inputs && !assignment.has_decided(index) {
        Some(index)
    } else {
        None
    }
}

// The same in a circuit.
pub fn choose(known: &Implied, circuit: Circuit<'_>, assignment: Assignment) -> Option<u8>
    ensures choice { Choice circuit.entry.inputs assignment false result }
{
    choose_among(known, circuit.gates, circuit.inputs, assignment)
}
