// Stores of records that a caller brings for the rules or gates of a text, and what fills them from a text's reader.
#![tactic(auto)]

ghost use Rattle.std.specs.Prelude.{◌≡◌};
ghost use Rattle.stores.specs.Stores.{roomy};

mod passes;
mod records;

use faults::StoreFault;
pub use passes::{fill, read_through};
pub use records::Records;

// Whether a store of so many records has one for each of the text's.
pub fn room(count: usize, records: usize) -> Result<(), StoreFault>
    ensures value { result ≡ roomy count records }
{
    if count <= records {
        Ok(())
    } else {
        Err(StoreFault::Short(records))
    }
}
