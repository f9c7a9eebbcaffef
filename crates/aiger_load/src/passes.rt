// The two passes over a text: one that only reads, and one that fills the store.
ghost use Rattle.std.specs.Prelude.{◌≡◌, length};
ghost use Rattle.aiger.specs.Aag.{read_aag};
ghost use Rattle.aiger_load.specs.Loads.{measured, gates};
ghost use Rattle.stores.specs.Stores.{laid, Room};

use super::Network;
use aiger::{Gate, Opening};
use faults::StoreFault;
use stores::{Records, read_through};
use texts::check_length;

// Reads the whole text, and says what it has besides its gates.
#[tactic(auto, using(aiger::specs::Counts::gates_as_many, aiger::proofs::Literals::no_cut))]
pub fn measure(text: &[u8]) -> Result<Network, StoreFault>
    ensures reads { result ≡ measured (read_aag text.now) }
{
    check_length(text)?;
    let gates = Opening::new(text).heading()?;
    let inputs = gates.inputs() as usize;
    let count = gates.count();
    let output = gates.output();
    read_through(gates)?;
    Ok(Network {
        inputs,
        count,
        output,
    })
}

// Reads once more a text that can be read, and puts its gates into the front of the store.
#[tactic(auto, using(crate::proofs::Bodies::gates_are))]
pub fn fill(text: &[u8], store: &mut [Gate])
    requires room { Room (gates (read_aag text.now)) (length store.old) }
    ensures store { store.new ≡ laid (gates (read_aag text.now)) store.old }
{
    let Ok(gates) = Opening::new(text).heading() else {
        unreachable!()
    };
    stores::fill(gates, store);
}
