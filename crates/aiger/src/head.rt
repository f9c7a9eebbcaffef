// What stands before the gates of a gate text.
ghost use Rattle.std.specs.Prelude.{◌≡◌, ◌+◌, ◌*◌, ◌≤◌, IfOk};
ghost use Rattle.aiger.specs.Aag.{count_due, heading_line, due_line, input_lines, heading};
ghost use Rattle.aiger.specs.Reader.{headed, Small, Ready};
ghost use Rattle.texts.specs.Due.{one, leaving};
ghost use Rattle.texts.specs.Lexemes.{ahead, lexemes_from};

use super::{Gates, Opening};
use faults::TextFault;
use texts::{Words, limited};

// The number of gates, which makes up all the variables together with the inputs.
fn gate_count(words: &mut Words, all: u16, inputs: u16) -> Result<u16, TextFault>
    requires few { inputs ≤ 32 }
    ensures reads { one (count_due all inputs) (ahead words.old) ≡ leaving result (ahead words.new) }
    ensures bound { IfOk result (λ n. n ≤ 2048) }
{
    let (word, at) = words.word()?;
    let count = limited(word, at, 0, 2048)?;
    if inputs + count == all {
        Ok(count)
    } else {
        Err(TextFault::Limit(at))
    }
}

// The line `aag M I L O A`; answers I and A.
fn heading_line(words: &mut Words) -> Result<(u16, u16), TextFault>
    ensures reads { heading_line (ahead words.old) ≡ leaving result (ahead words.new) }
    ensures small { IfOk result Small }
{
    words.exactly(b"aag")?;
    let all = words.number(1, 2080)?;
    let inputs = words.number(1, 32)?;
    words.number(0, 0)?;
    words.number(1, 1)?;
    let count = gate_count(words, all, inputs)?;
    words.line_end()?;
    Ok((inputs, count))
}

// A line with the number `due` alone.
fn due_line(words: &mut Words, due: u16) -> Result<(), TextFault>
    ensures reads { due_line due (ahead words.old) ≡ leaving result (ahead words.new) }
{
    words.number(due, due)?;
    words.line_end()?;
    Ok(())
}

// The input lines 2, 4 and so on.
fn input_lines(words: &mut Words, inputs: u16) -> Result<(), TextFault>
    requires few { inputs ≤ 32 }
    ensures reads { input_lines inputs 2 (ahead words.old) ≡ leaving result (ahead words.new) }
{
    for k in 0..inputs {
        due_line(words, 2 * k + 2)?;
    }
    Ok(())
}

impl<'a> Opening<'a> {
    // A text of which nothing is read yet.
    pub fn new(text: &'a [u8]) -> Self
        ensures unread { ahead result.words ≡ lexemes_from 0 text.now }
    {
        Opening {
            words: Words::new(text),
        }
    }

    // Reads the heading, the inputs and the output, and gives the reader of the gates.
    pub fn heading(self) -> Result<Gates<'a>, TextFault>
        ensures reads { heading (ahead self.entry.words) ≡ headed result }
        ensures ready { IfOk result Ready }
    {
        let Opening { mut words } = self;
        let (inputs, count) = heading_line(&mut words)?;
        input_lines(&mut words, inputs)?;
        let output = words.number(0, 2 * (inputs + count) + 1)?;
        let behind = words.line_end()?;
        Ok(Gates {
            words,
            inputs,
            count,
            output,
            due: 2 * inputs + 2,
            behind,
        })
    }
}
