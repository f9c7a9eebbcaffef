// A network as a solver.
ghost use Rattle.std.specs.Prelude.{◌≤◌};

use additions::Additions;
use networks::Circuit;

// The gates lie as records in the store that the caller lends.
#[derive(Drop)]
pub struct GateSolver<'a> {
    pub(crate) circuit: Circuit<'a>,
    pub(crate) additions: Additions,
    pub ghost some_contact: { 1 ≤ circuit.inputs },
}
