// What a row of a table has.
use crate::outcome::Outcome;

// A short text, the number of contacts n, the number of records in the store, and what is due.
pub struct Row(pub &'static [u8], pub usize, pub usize, pub Outcome);

// A long text: a front, a part that is repeated, and a back.
pub struct LongRow {
    pub front: &'static [u8],
    pub part: &'static [u8],
    pub times: usize,
    pub back: &'static [u8],
    pub n: usize,
    pub records: usize,
    pub due: Outcome,
}
