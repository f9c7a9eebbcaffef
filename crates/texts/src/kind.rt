// The two kinds of text.
ghost use Rattle.std.specs.Prelude.{◌≡◌};
ghost use Rattle.texts.specs.Kinds.{first_solid, gate_text};

use crate::cut::is_blank;

// The first byte other than space and line feed.
fn first_solid(text: &[u8]) -> Option<u8>
    ensures first { result ≡ first_solid text.now }
{
    text.iter().copied().find(|byte| !is_blank(*byte))
}

// Whether a text is a gate text: its first byte other than space and line feed is `a`. Every other text, the empty one too, is a clause text.
pub fn is_gate_text(text: &[u8]) -> bool
    ensures kind { result ≡ gate_text text.now }
{
    matches!(first_solid(text), Some(b'a'))
}
