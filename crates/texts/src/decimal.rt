// Numbers in base ten.
ghost use Rattle.std.specs.Prelude.{◌≡◌, ◌+◌, ◌-◌, ◌*◌, ◌≤◌, min, true, if◌then◌else◌, Some, None};
ghost use Rattle.std.specs.Str.Parse.{digits_value};
ghost use Rattle.std.specs.Char.{is_ascii_digit};
ghost use Rattle.texts.specs.Numerals.{numeral};

// More than any limit of a text: a greater number is told as this one.
const CAP: u32 = 1_000_000;

// The number with one digit more behind it.
fn with_digit(number: u32, digit: u8) -> u32
    requires small { number ≤ 1000000 }
    requires digit { is_ascii_digit digit ≡ true }
    ensures value { result ≡ min (number * 10 + (digit - 48)) 1000000 }
{
    (number * 10 + (digit - b'0') as u32).min(CAP)
}

// The number that the word writes, or `CAP` where it is more; `None` where the word is no number in base ten
// or has needless zeros in front.
#[tactic(auto, using(crate::proofs::Numerals::readings))]
pub fn decimal(word: &[u8]) -> Option<u32>
    ensures value { result ≡ (if numeral word.now then Some (min (digits_value 10 word.now) 1000000) else None) }
{
    if let [] | [b'0', _, ..] = word {
        return None;
    }
    let mut number = 0;
    for byte in word {
        if !byte.is_ascii_digit() {
            return None;
        }
        number = with_digit(number, *byte);
    }
    Some(number)
}
