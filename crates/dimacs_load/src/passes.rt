// The two passes over a text: one that only reads, and one that fills the store.
ghost use Rattle.std.specs.Prelude.{◌≡◌, length};
ghost use Rattle.dimacs.specs.Cnf.{read_cnf};
ghost use Rattle.dimacs_load.specs.Loads.{measured, sets};
ghost use Rattle.stores.specs.Stores.{laid, Room};

use super::Size;
use dimacs::Opening;
use faults::StoreFault;
use literals::LiteralSet;
use stores::{Records, read_through};
use texts::check_length;

// Reads the whole text, and says how large it is.
#[tactic(auto, using(dimacs::specs::Counts::rules_as_many))]
pub fn measure(text: &[u8]) -> Result<Size, StoreFault>
    ensures reads { result ≡ measured (read_cnf text.now) }
{
    check_length(text)?;
    let rules = Opening::new(text).heading()?;
    let vars = rules.vars() as usize;
    let count = rules.count();
    read_through(rules)?;
    Ok(Size { vars, count })
}

// Reads once more a text that can be read, and puts its rules into the front of the store.
pub fn fill(text: &[u8], store: &mut [LiteralSet])
    requires room { Room (sets (read_cnf text.now)) (length store.old) }
    ensures store { store.new ≡ laid (sets (read_cnf text.now)) store.old }
{
    let Ok(rules) = Opening::new(text).heading() else {
        unreachable!()
    };
    stores::fill(rules, store);
}
