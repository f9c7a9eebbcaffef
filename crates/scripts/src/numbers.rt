// The numbers and literals of a script.
ghost use Rattle.std.specs.Prelude.{◌≡◌};
ghost use Rattle.scripts.specs.Grammar.{number_of, positive_of, negative_of, literal_of};

use texts::limited;

// A label, the number of a ticket or a length.
pub fn number(word: &[u8]) -> Option<u16>
    ensures value { result ≡ number_of word.now }
{
    limited(word, 0, 0, 65535).ok()
}

// A literal that has no minus.
fn positive(word: &[u8]) -> Option<i8>
    ensures value { result ≡ positive_of word.now }
{
    let n = limited(word, 0, 0, 127).ok()?;
    Some(n as i8)
}

// What stands behind the minus of a literal.
fn negative(digits: &[u8]) -> Option<i8>
    ensures value { result ≡ negative_of digits.now }
{
    let n = limited(digits, 0, 1, 128).ok()?;
    Some((-(n as i16)) as i8)
}

// A literal, whether it names a contact or not.
pub fn literal(word: &[u8]) -> Option<i8>
    ensures value { result ≡ literal_of word.now }
{
    match word {
        [] => None,
        [b'-', digits @ ..] => negative(digits),
        _ => positive(word),
    }
}
