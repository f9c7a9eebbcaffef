// Puts rules and whole texts.
ghost use Rattle.std.specs.Prelude.{◌≡◌, ℕ, ◌+◌, ◌^◌, ◌<◌, ◌≤◌, List, length, Ok};
ghost use Rattle.dimacs.specs.Cnf.{read_cnf};
ghost use Rattle.literals.specs.Literals.{listed};
ghost use Rattle.dimacs_write.specs.Laws.{as_sets, ReadsBack, WrittenAgain};
ghost use Rattle.dimacs_write.specs.Puts.{over, Put, variable_text, written_over};
ghost use Rattle.dimacs_write.specs.Texts.{rule_text, set_texts, set_text, written, buffer_after};

use super::Output;
use dimacs::LoadedRules;
use faults::SheetFault;
use literals::{LiteralSet, has_bit};

#[tactic(auto, using(crate::proofs::Buffers::puts))]
impl<'a> Output<'a> {
    // Puts the literals of variable k + 1 that the set has.
    #[tactic(auto, using(crate::proofs::Buffers::appends))]
    fn variable(&mut self, set: &LiteralSet, k: usize)
        requires low { self.old.length < 2 ^ 58 }
        requires few { k < 64 }
        ensures put { Put self.old (variable_text set.now k) self.new }
        ensures most { self.new.length ≤ self.old.length + 8 }
    {
        self.literal_if(has_bit(set.closed, k), false, k);
        self.literal_if(has_bit(set.opened, k), true, k);
    }

    // Puts a rule's line.
    fn rule(&mut self, set: &LiteralSet, vars: usize)
        requires low { self.old.length < 2 ^ 57 }
        requires few { vars ≤ 64 }
        ensures put { Put self.old (rule_text (listed vars set.now)) self.new }
        ensures most { self.new.length ≤ self.old.length + 514 }
    {
        for k in 0..vars {
            self.variable(set, k);
        }
        self.bytes(b"0\n");
    }

    // Puts the lines of all rules.
    fn rules(&mut self, loaded: LoadedRules)
        requires low { self.old.length < 2 ^ 32 }
        requires few { loaded.vars ≤ 64 }
        requires short { length loaded.rules.now ≤ 4096 }
        ensures put { Put self.old (set_texts loaded.entry.vars loaded.entry.rules.now) self.new }
    {
        for set in loaded.rules {
            self.rule(set, loaded.vars);
        }
    }

    // Puts the whole text.
    fn text(&mut self, loaded: LoadedRules)
        requires empty { self.old.length ≡ 0 }
        requires few { loaded.vars ≤ 64 }
        requires short { length loaded.rules.now ≤ 4096 }
        ensures put { Put self.old (set_text loaded.entry.vars loaded.entry.rules.now) self.new }
    {
        self.bytes(b"p cnf ");
        self.spaced(loaded.vars);
        self.number(loaded.rules.len());
        self.bytes(b"\n");
        self.rules(loaded);
    }
}

// Puts the whole text into a buffer, and tells its length.
fn put_text(buffer: &mut [u8], loaded: LoadedRules) -> usize
    requires few { loaded.vars ≤ 64 }
    requires short { length loaded.rules.now ≤ 4096 }
    ensures bytes { buffer.new ≡ over buffer.old 0 (set_text loaded.entry.vars loaded.entry.rules.now) }
    ensures next { result ≡ length (set_text loaded.entry.vars loaded.entry.rules.now) }
{
    let mut output = Output::new(buffer);
    output.text(loaded);
    output.length
}

// Writes the text where the buffer has room for it. No buffer has room for more rules or variables than a clause text may have.
fn put_whole(out: &mut [u8], loaded: LoadedRules) -> Result<usize, SheetFault>
    ensures answer { result ≡ written loaded.entry.vars loaded.entry.rules.now (length out.old) }
    ensures buffer { out.new ≡ written_over result (set_text loaded.entry.vars loaded.entry.rules.now) out.old }
{
    if loaded.vars < 1 || loaded.vars > 64 || loaded.rules.len() > 4096 {
        return Err(SheetFault::ShortBuffer);
    }
    let mut nothing: [u8; 0] = [];
    if put_text(&mut nothing, loaded) > out.len() {
        return Err(SheetFault::ShortBuffer);
    }
    Ok(put_text(out, loaded))
}

// Writes the rules as a clause text at the buffer's front, and tells its length; a refusal leaves the buffer as it was.
pub fn write(loaded: LoadedRules, out: &mut [u8]) -> Result<usize, SheetFault>
    ensures answer { result ≡ written loaded.entry.vars loaded.entry.rules.now (length out.old) }
    ensures buffer { out.new ≡ buffer_after result (set_text loaded.entry.vars loaded.entry.rules.now) out.old }
    ensures back { ReadsBack loaded.entry.vars loaded.entry.rules.now result out.new }
    ensures again { (text : List ℕ) → as_sets (read_cnf text) ≡ Ok (loaded.entry.vars, loaded.entry.rules.now) → WrittenAgain loaded.entry.vars loaded.entry.rules.now text }
{
    put_whole(out, loaded)
}
