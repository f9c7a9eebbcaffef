// The literals of a clause text.
ghost use Rattle.std.specs.Prelude.{◌≡◌};
ghost use Rattle.dimacs.specs.Literals.{negated, signed, literal};
ghost use Rattle.texts.specs.Due.{one, leaving};
ghost use Rattle.texts.specs.Lexemes.{ahead};

use faults::TextFault;
use texts::{Words, limited};

// A literal is a signed 8-bit number.
const GREATEST: u16 = 127;

// What a minus stands before: a number from 1 to `vars`.
fn negated(digits: &[u8], place: usize, vars: u16) -> Result<Option<i8>, TextFault>
    ensures value { result ≡ negated vars digits.now place }
{
    match limited(digits, place, 0, vars.min(GREATEST))? {
        0 => Err(TextFault::Shape(place)),
        n => Ok(Some(-(n as i8))),
    }
}

// The literal of a word; none of the closing 0.
fn signed(word: &[u8], place: usize, vars: u16) -> Result<Option<i8>, TextFault>
    ensures value { result ≡ signed vars word.now place }
{
    if let [b'-', digits @ ..] = word {
        return negated(digits, place, vars);
    }
    match limited(word, place, 0, vars.min(GREATEST))? {
        0 => Ok(None),
        n => Ok(Some(n as i8)),
    }
}

// A literal of at most `vars`; none at the closing 0.
pub fn literal(words: &mut Words, vars: u16) -> Result<Option<i8>, TextFault>
    ensures reads { one (literal vars) (ahead words.old) ≡ leaving result (ahead words.new) }
{
    let (word, at) = words.word()?;
    signed(word, at, vars)
}
