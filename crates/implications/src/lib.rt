// What follows for the variables of a network from what is decided of its inputs, where its output is to be 1:
// forward from the sides of a gate to the gate, and backward from the gate to its sides.
#![tactic(auto)]

ghost use Rattle.std.specs.Prelude.{◌≡◌};
ghost use Rattle.implications.specs.Ternaries.{inferred};
ghost use Rattle.implications.specs.Implied.{Implies};

use networks::{Circuit, readable};
use search::Assignment;

mod known;

pub use known::Implied;

// What is known contradicts itself.
#[derive(Clone, Copy)]
pub struct Contradiction;

// What follows at a gate, from what is known of it and of its sides.
// All seven are cases of one enum: with an Option inside a Result the table below would be no plainer.
#[derive(Clone, Copy)]
enum Consequence {
    Nothing,
    Contradiction,
    OutZero,
    OutOne,
    LeftZero,
    RightZero,
    SidesOne,
}

// Forward to a gate from its sides, and backward from the gate to its sides.
fn infer(out: Option<bool>, left: Option<bool>, right: Option<bool>) -> Consequence
    ensures follows { result ≡ inferred out left right }
{
    match (out, left, right) {
        (Some(true), Some(false), _) => Consequence::Contradiction,
        (Some(true), _, Some(false)) => Consequence::Contradiction,
        (Some(true), Some(true), Some(true)) => Consequence::Nothing,
        (Some(true), _, _) => Consequence::SidesOne,
        (Some(false), Some(true), Some(true)) => Consequence::Contradiction,
        (Some(false), Some(true), None) => Consequence::RightZero,
        (Some(false), None, Some(true)) => Consequence::LeftZero,
        (Some(false), _, _) => Consequence::Nothing,
        (None, Some(true), Some(true)) => Consequence::OutOne,
        (None, Some(false), _) => Consequence::OutZero,
        (None, _, Some(false)) => Consequence::OutZero,
        (None, _, _) => Consequence::Nothing,
    }
}

// What follows from an assignment of the inputs where the output is 1, unless that cannot be.
pub fn imply(circuit: Circuit<'_>, assignment: Assignment) -> Result<Implied, Contradiction>
    ensures implied { Implies circuit.entry assignment result }
{
    let variables = circuit.inputs as usize + 1 + circuit.gates.len();
    let mut known = Implied::at_first(circuit, assignment);
    known.demand(readable(circuit.output, variables))?;
    known.propagate(circuit)?;
    Ok(known)
}
