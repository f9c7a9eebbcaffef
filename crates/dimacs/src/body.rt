// The rules of a clause text.
ghost use Rattle.std.specs.Prelude.{◌≡◌};
ghost use Rattle.dimacs.specs.Reader.{set_line, rule_set, gave, sets_ahead};
ghost use Rattle.dimacs.specs.Counts.{sets_as_many};
ghost use Rattle.stores.specs.Stores.{nothing_behind};
ghost use Rattle.texts.specs.Due.{leaving, ended};
ghost use Rattle.texts.specs.Lexemes.{ahead};

use super::Rules;
use crate::literal::literal;
use faults::TextFault;
use literals::LiteralSet;
use stores::Records;
use texts::Words;

// The literals up to the closing 0.
fn set_line(words: &mut Words, vars: u16) -> Result<LiteralSet, TextFault>
    ensures reads { set_line vars (ahead words.old) ≡ leaving result (ahead words.new) }
{
    let mut rule = LiteralSet::empty();
    while let Some(literal) = literal(words, vars)? {
        rule = rule.with(literal);
    }
    Ok(rule)
}

impl<'a> Rules<'a> {
    // The next rule, as the set of its literals.
    pub fn rule(&mut self) -> Result<LiteralSet, TextFault>
        ensures reads { rule_set self.old.vars (ahead self.old.words) ≡ gave result self.new }
        ensures vars { self.new.vars ≡ self.old.vars }
        ensures count { self.new.count ≡ self.old.count }
    {
        let rule = set_line(&mut self.words, self.vars)?;
        self.behind = self.words.line_end()?;
        Ok(rule)
    }
}

// The records of a clause text are its rules.
impl<'a> Records for Rules<'a> {
    type Record = LiteralSet;

    ghost number = { λ r. r.count };

    ghost reading = { sets_ahead };

    ghost as_many = { λ n r. sets_as_many r.vars n r.behind (ahead r.words) };

    fn count(&self) -> usize {
        self.count as usize
    }

    fn next(&mut self) -> Result<LiteralSet, TextFault> {
        self.rule()
    }

    fn finish(self) -> Result<(), TextFault>
        ensures reads { result ≡ ended self.entry.behind (ahead self.entry.words) }
        ensures ends { sets_ahead 0 self.entry ≡ nothing_behind result }
    {
        let Rules { words, behind, .. } = self;
        words.finish(behind)
    }
}
