// The lines of a script.
ghost use Rattle.std.specs.Prelude.{◌≡◌, ◌==◌, [], ◌∷◌, MatchOption, position};
ghost use Rattle.std.specs.Iterator.{YieldsFirstRef, item_count};
ghost use Rattle.scripts.specs.Lines.{lines_of, lines_ahead};

// A script, read from its front on: an iterator over its lines, each without its line feed.
#[derive(Drop)]
pub struct Script<'a> {
    rest: &'a [u8],
}

// The place of the first line feed.
fn first_feed(text: &[u8]) -> Option<usize>
    ensures feed { result ≡ position (λ b. b == 10) text.now }
{
    text.iter().position(|byte| *byte == b'\n')
}

// The first line, without its line feed, and what stands behind it.
#[tactic(auto, using(crate::proofs::Cuts::cuts))]
fn cut_line(text: &[u8]) -> Option<(&[u8], &[u8])>
    ensures cases { MatchOption result (lines_of text.now ≡ []) (λ p. lines_of text.now ≡ p.0.now ∷ lines_of p.1.now) }
{
    if text.is_empty() {
        return None;
    }
    match first_feed(text) {
        Some(feed) => Some((&text[..feed], &text[feed + 1..])),
        None => Some((text, &[])),
    }
}

impl<'a> Script<'a> {
    // A script of which nothing is read yet.
    pub fn new(text: &'a [u8]) -> Self
        ensures unread { lines_ahead result ≡ lines_of text.now }
    {
        Script { rest: text }
    }
}

impl<'a> Iterator for Script<'a> {
    type Item = &'a [u8];

    ghost next_gives = { YieldsFirstRef lines_ahead };

    ghost remaining = { item_count lines_ahead };

    fn next(&mut self) -> Option<&'a [u8]> {
        let (line, rest) = cut_line(self.rest)?;
        self.rest = rest;
        Some(line)
    }
}
