// How a text is cut.
ghost use Rattle.std.specs.Prelude.{◌≡◌, ◌==◌, ◌≤◌, not, length};
ghost use Rattle.std.specs.List.{prefix_len};
ghost use Rattle.texts.specs.Lexemes.{blank, lexemes_from, lexeme, ahead, then, PlaceBehind};

use super::{Token, Words};

// Space and line feed part words.
pub(crate) fn is_blank(byte: u8) -> bool
    ensures value { result ≡ blank byte }
{
    byte == b' ' || byte == b'\n'
}

// How many spaces stand in front.
fn leading_spaces(text: &[u8]) -> usize
    ensures value { result ≡ prefix_len (λ b. b == 32) text.now }
    ensures within { result ≤ length text.now }
{
    text.iter().take_while(|byte| **byte == b' ').count()
}

// How many bytes in front are not blank.
fn word_length(text: &[u8]) -> usize
    ensures value { result ≡ prefix_len (λ b. not (blank b)) text.now }
    ensures within { result ≤ length text.now }
{
    text.iter().take_while(|byte| !is_blank(**byte)).count()
}

#[tactic(auto, using(crate::proofs::Cuts::cuts), unfolding(crate::specs::Lexemes::lexemes_from))]
impl<'a> Words<'a> {
    // A text of which nothing is read yet.
    pub fn new(text: &'a [u8]) -> Self
        ensures unread { ahead result ≡ lexemes_from 0 text.now }
    {
        Words { rest: text, at: 0 }
    }

    // The next word, line feed or end; behind the end there is the end again.
    pub fn next(&mut self) -> Token<'a>
        ensures gives { ahead self.old ≡ then (lexeme result) (ahead self.new) }
        ensures fits { PlaceBehind result }
    {
        let spaces = leading_spaces(self.rest);
        let (_, rest) = self.rest.split_at(spaces);
        let at = self.at + spaces;
        match rest.split_first() {
            None => {
                self.rest = rest;
                self.at = at;
                Token::End(at)
            }
            Some((b'\n', behind)) => {
                self.rest = behind;
                self.at = at + 1;
                Token::LineEnd(at)
            }
            Some(_) => {
                let (word, behind) = rest.split_at(word_length(rest));
                self.rest = behind;
                self.at = at + word.len();
                Token::Word(word, at)
            }
        }
    }
}
