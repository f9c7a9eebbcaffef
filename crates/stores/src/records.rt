// A reader of the records of a text.
ghost use Rattle.std.specs.Prelude.{◌≡◌, ℕ, ◌+◌, List, length, Ok, Result};
ghost use Rattle.faults.specs.declared.TextFault.{TextFault};
ghost use Rattle.stores.specs.Stores.{with_first, nothing_behind};

use faults::TextFault;

// A text whose heading was accepted, and whose records are read one after another.
pub trait Records: Drop {
    type Record: Copy;

    // how many records the heading says
    ghost number: { Self → ℕ };

    // what reading so many more records, and then the end, gives
    ghost reading: { ℕ → Self → Result (List Self.Record) TextFault };

    // The number of records.
    fn count(&self) -> usize
        ensures value { result ≡ number self.now };

    // The next record.
    fn next(&mut self) -> Result<Self::Record, TextFault>
        ensures begins { (n : ℕ) → reading (n + 1) self.old ≡ with_first result (reading n self.new) };

    // The end of the text, right behind the last line that was read.
    fn finish(self) -> Result<(), TextFault>
        ensures ends { reading 0 self ≡ nothing_behind result };

    // a reading gives as many records as were asked for
    ghost as_many: { (n : ℕ) (r : Self) (rs : List Self.Record) → reading n r ≡ Ok rs → length rs ≡ n };
}
