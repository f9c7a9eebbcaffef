// What is due next: one token, judged.
ghost use Rattle.std.specs.Prelude.{◌≡◌, ◌≤◌, IfOk, Ok};
ghost use Rattle.texts.specs.Due.{length_due, limited, word_due, number, line_end_due, exact, exactly, ended, and_then, one, leaving};
ghost use Rattle.texts.specs.Lexemes.{ahead};

use super::{Token, Words};
use crate::decimal::decimal;
use faults::TextFault;

// More bytes than this make no text.
const LONGEST: usize = 60_000;

// Whether the bytes are few enough for a text.
pub fn check_length(text: &[u8]) -> Result<(), TextFault>
    ensures value { result ≡ length_due text.now }
{
    if text.len() > LONGEST {
        return Err(TextFault::Limit(LONGEST));
    }
    Ok(())
}

// The number of the word at that place, from `low` to `high`.
pub fn limited(word: &[u8], place: usize, low: u16, high: u16) -> Result<u16, TextFault>
    ensures value { result ≡ limited low high word.now place }
    ensures bound { IfOk result (λ n. n ≤ high) }
{
    match decimal(word) {
        None => Err(TextFault::Shape(place)),
        Some(n) if low as u32 <= n && n <= high as u32 => Ok(n as u16),
        Some(_) => Err(TextFault::Limit(place)),
    }
}

// Whether the word at that place is the word `due`.
pub fn exact(word: &[u8], place: usize, due: &[u8]) -> Result<(), TextFault>
    ensures value { result ≡ exact due.now word.now place }
{
    if word == due {
        Ok(())
    } else {
        Err(TextFault::Shape(place))
    }
}

impl<'a> Words<'a> {
    // A word, and its place.
    pub fn word(&mut self) -> Result<(&'a [u8], usize), TextFault>
        ensures reads { one word_due (ahead self.old) ≡ leaving (and_then result (λ w. Ok (w.0.now, w.1))) (ahead self.new) }
    {
        match self.next() {
            Token::Word(word, at) => Ok((word, at)),
            Token::LineEnd(at) | Token::End(at) => Err(TextFault::Shape(at)),
        }
    }

    // A number from `low` to `high`.
    pub fn number(&mut self, low: u16, high: u16) -> Result<u16, TextFault>
        ensures reads { one (number low high) (ahead self.old) ≡ leaving result (ahead self.new) }
        ensures bound { IfOk result (λ n. n ≤ high) }
    {
        let (word, at) = self.word()?;
        limited(word, at, low, high)
    }

    // The end of a line; answers the place behind it.
    pub fn line_end(&mut self) -> Result<usize, TextFault>
        ensures reads { one line_end_due (ahead self.old) ≡ leaving result (ahead self.new) }
    {
        match self.next() {
            Token::LineEnd(at) => Ok(at + 1),
            Token::Word(_, at) | Token::End(at) => Err(TextFault::Shape(at)),
        }
    }

    // The word `due` itself.
    pub fn exactly(&mut self, due: &[u8]) -> Result<(), TextFault>
        ensures reads { one (exactly due.now) (ahead self.old) ≡ leaving result (ahead self.new) }
    {
        let (word, at) = self.word()?;
        exact(word, at, due)
    }

    // The end of the text, right at `behind`: not even spaces stand before it.
    pub fn finish(mut self, behind: usize) -> Result<(), TextFault>
        ensures reads { result ≡ ended behind (ahead self.entry) }
    {
        match self.next() {
            Token::End(at) if at == behind => Ok(()),
            Token::Word(_, at) | Token::LineEnd(at) | Token::End(at) => Err(TextFault::Shape(at)),
        }
    }
}
