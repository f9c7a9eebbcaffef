// The gates of a gate text.
ghost use Rattle.std.specs.Prelude.{◌≡◌, ◌+◌, min};
ghost use Rattle.aiger.specs.Aag.{gate_line};
ghost use Rattle.aiger.specs.Counts.{gates_as_many};
ghost use Rattle.aiger.specs.Reader.{gave, gates_ahead};
ghost use Rattle.stores.specs.Stores.{nothing_behind};
ghost use Rattle.texts.specs.Due.{ended};
ghost use Rattle.texts.specs.Lexemes.{ahead};

use super::{Gate, Gates};
use faults::TextFault;
use stores::Records;

impl<'a> Gates<'a> {
    // The next gate.
    pub fn gate(&mut self) -> Result<Gate, TextFault>
        ensures reads { gate_line self.old.due (ahead self.old.words) ≡ gave result self.new }
        ensures due { self.new.due ≡ min (self.old.due + 2) 65535 }
        ensures inputs { self.new.inputs ≡ self.old.inputs }
        ensures count { self.new.count ≡ self.old.count }
        ensures output { self.new.output ≡ self.old.output }
    {
        let due = self.due;
        self.due = due.saturating_add(2);
        self.words.number(due, due)?;
        let most = due.saturating_sub(1);
        let left = self.words.number(0, most)?;
        let right = self.words.number(0, most)?;
        self.behind = self.words.line_end()?;
        Ok(Gate { left, right })
    }
}

// The records of a gate text are its gates.
impl<'a> Records for Gates<'a> {
    type Record = Gate;

    ghost number = { λ r. r.count };

    ghost reading = { gates_ahead };

    ghost as_many = { λ n r. gates_as_many n r.due r.behind (ahead r.words) };

    fn count(&self) -> usize {
        self.count as usize
    }

    fn next(&mut self) -> Result<Gate, TextFault> {
        self.gate()
    }

    fn finish(self) -> Result<(), TextFault>
        ensures reads { result ≡ ended self.entry.behind (ahead self.entry.words) }
        ensures ends { gates_ahead 0 self.entry ≡ nothing_behind result }
    {
        let Gates { words, behind, .. } = self;
        words.finish(behind)
    }
}
