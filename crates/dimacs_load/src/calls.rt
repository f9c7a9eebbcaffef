// The loading of a text.
ghost use Rattle.std.specs.Prelude.{◌≡◌, length};
ghost use Rattle.dimacs.specs.Cnf.{read_cnf};
ghost use Rattle.dimacs.specs.Grammar.{ReadsJust};
ghost use Rattle.dimacs_load.specs.Loads.{loaded, store_after};

use super::Size;
use crate::passes::{fill, measure};
use faults::SheetFault;
use literals::LiteralSet;
use stores::room;

// Loads the text for n contacts. A refusal leaves the store as it was.
#[tactic(auto, using(dimacs::proofs::Grammars::reads_just))]
pub fn load(text: &[u8], n: usize, store: &mut [LiteralSet]) -> Result<Size, SheetFault>
    ensures answer { result ≡ loaded n (length store.old) (read_cnf text.now) }
    ensures store { store.new ≡ store_after result (read_cnf text.now) store.old }
    ensures reads { ReadsJust text.now }
{
    let size = measure(text)?;
    if n < 1 || n > 32 || n > size.vars {
        return Err(SheetFault::WrongContacts);
    }
    room(size.count, store.len())?;
    fill(text, store);
    Ok(size)
}
