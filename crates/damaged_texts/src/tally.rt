// Runs rows, prints those that come out otherwise than is due, and counts.
use crate::outcome::Outcome;
use crate::rows::{LongRow, Row};
use std::alloc::{AllocError, Global};
use std::io;

// How many rows were run, and how many of them came out otherwise than is due.
#[derive(Drop)]
pub struct Tally {
    pub rows: usize,
    pub differ: usize,
}

fn text_of(heap: Global, row: &LongRow) -> Result<Vec<u8>, AllocError> {
    let mut text = Vec::new(heap);
    text.extend_from_slice(row.front)?;
    for _ in 0..row.times {
        text.extend_from_slice(row.part)?;
    }
    text.extend_from_slice(row.back)?;
    Ok(text)
}

impl Tally {
    pub fn new() -> Self {
        Tally { rows: 0, differ: 0 }
    }

    fn count(&mut self, rt: &impl Print, came: Outcome, due: Outcome) -> io::Result<()> {
        self.rows = self.rows.saturating_add(1);
        if came != due {
            self.differ = self.differ.saturating_add(1);
            let row = self.rows;
            println!(rt; "row {row}: {came} came, {due} is due")?;
        }
        Ok(())
    }

    // Loads each row's text by `load`.
    pub fn run<F: Fn(Global, &[u8], usize, usize) -> Result<Outcome, AllocError>>(
        &mut self,
        rt: &HostRuntime,
        load: &F,
        rows: &[Row],
    ) -> anyhow::Result<()>
        requires callable { F.IsAlwaysCallable load.now }
    {
        for Row(text, n, records, due) in rows {
            let came = load(rt.alloc(), text, *n, *records)?;
            self.count(rt, came, *due)?;
        }
        Ok(())
    }

    pub fn run_long<F: Fn(Global, &[u8], usize, usize) -> Result<Outcome, AllocError>>(
        &mut self,
        rt: &HostRuntime,
        load: &F,
        rows: &[LongRow],
    ) -> anyhow::Result<()>
        requires callable { F.IsAlwaysCallable load.now }
    {
        for row in rows {
            let text = text_of(rt.alloc(), row)?;
            let came = load(rt.alloc(), text.as_slice(), row.n, row.records)?;
            self.count(rt, came, row.due)?;
        }
        Ok(())
    }
}
