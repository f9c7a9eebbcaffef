// The loading of a text.
ghost use Rattle.std.specs.Prelude.{◌≡◌, length};
ghost use Rattle.aiger.specs.Aag.{read_aag};
ghost use Rattle.aiger.specs.Grammar.{ReadsJust};
ghost use Rattle.aiger_load.specs.Loads.{loaded, store_after};

use super::Network;
use crate::passes::{fill, measure};
use aiger::Gate;
use faults::SheetFault;
use stores::room;

// Loads the text for n contacts. A refusal leaves the store as it was.
#[tactic(auto, using(aiger::proofs::Grammars::reads_just))]
pub fn load(text: &[u8], n: usize, store: &mut [Gate]) -> Result<Network, SheetFault>
    ensures answer { result ≡ loaded n (length store.old) (read_aag text.now) }
    ensures store { store.new ≡ store_after result (read_aag text.now) store.old }
    ensures reads { ReadsJust text.now }
{
    let network = measure(text)?;
    let suits = n == network.inputs;
    if !suits {
        return Err(SheetFault::WrongContacts);
    }
    room(network.count, store.len())?;
    fill(text, store);
    Ok(network)
}
