// The two passes over a text: one that only reads, and one that fills the store.
ghost use Rattle.std.specs.Prelude.{◌≡◌, IsOk, Ok, length};
ghost use Rattle.stores.specs.Stores.{verdict, laid, Room};

use crate::records::Records;
use faults::TextFault;

// Reads all the records and the end.
pub fn read_through<R: Records>(mut records: R) -> Result<(), TextFault>
    ensures reads { result ≡ verdict (R.reading (R.number records) records) }
{
    for _ in 0..records.count() {
        let _ = records.next()?;
    }
    records.finish()
}

// Puts a record into each place.
fn pour<R: Records>(mut records: R, places: &mut [R::Record])
    requires readable { IsOk (R.reading (length places.old) records) }
    ensures placed { R.reading (length places.old) records ≡ Ok places.new }
{
    for place in places {
        match records.next() {
            Ok(record) => *place = record,
            Err(_) => unreachable!(),
        }
    }
}

// Puts the records of a text that can be read into the front of the store.
pub fn fill<R: Records>(records: R, store: &mut [R::Record])
    requires room { Room (R.reading (R.number records) records) (length store.old) }
    ensures front { store.new ≡ laid (R.reading (R.number records) records) store.old }
{
    let count = records.count();
    pour(records, &mut store[..count]);
}
