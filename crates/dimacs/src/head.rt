// What stands before the rules of a clause text.
ghost use Rattle.std.specs.Prelude.{◌≡◌, ◌≤◌, true, false, length, IfOk, OnOk};
ghost use Rattle.dimacs.specs.Cnf.{opening, heading};
ghost use Rattle.dimacs.specs.Reader.{headed};
ghost use Rattle.texts.specs.Due.{and_then, leaving};
ghost use Rattle.texts.specs.Lexemes.{ahead, lexemes_from};

use super::{Opening, Rules};
use faults::TextFault;
use texts::{Token, Words, exact};

// Passes over what is left of a comment line.
fn skip_line(words: &mut Words) -> Result<(), TextFault>
    ensures skips { opening true (ahead words.old) ≡ and_then result (λ _. opening false (ahead words.new)) }
    ensures fewer { OnOk result (length (ahead words.new) ≤ length (ahead words.old)) }
{
    loop {
        match words.next() {
            Token::Word(_, _) => {}
            Token::LineEnd(_) => return Ok(()),
            Token::End(at) => return Err(TextFault::Shape(at)),
        }
    }
}

// The word `p`, behind comment lines: a line is a comment when its first word begins with `c`.
fn opening(words: &mut Words) -> Result<(), TextFault>
    ensures reads { opening false (ahead words.old) ≡ leaving result (ahead words.new) }
{
    loop {
        match words.next() {
            Token::Word([b'c', ..], _) => skip_line(words)?,
            Token::Word(word, at) => return exact(word, at, b"p"),
            Token::LineEnd(at) | Token::End(at) => return Err(TextFault::Shape(at)),
        }
    }
}

impl<'a> Opening<'a> {
    // A text of which nothing is read yet.
    pub fn new(text: &'a [u8]) -> Self
        ensures unread { ahead result.words ≡ lexemes_from 0 text.now }
    {
        Opening {
            words: Words::new(text),
        }
    }

    // Reads the heading, and gives the reader of the rules.
    pub fn heading(self) -> Result<Rules<'a>, TextFault>
        ensures reads { heading (ahead self.entry.words) ≡ headed result }
        ensures few { IfOk result (λ s. s.vars ≤ 64) }
    {
        let Opening { mut words } = self;
        opening(&mut words)?;
        words.exactly(b"cnf")?;
        let vars = words.number(1, 64)?;
        let count = words.number(0, 4096)?;
        let behind = words.line_end()?;
        Ok(Rules {
            words,
            vars,
            count,
            behind,
        })
    }
}
