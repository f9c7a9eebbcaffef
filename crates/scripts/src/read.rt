// What a line asks for.
ghost use Rattle.std.specs.Prelude.{◌≡◌, [], ◌++◌, IfOk, Some, vec_items};
ghost use Rattle.std.specs.Option.{option_map};
ghost use Rattle.scripts.specs.Words.{words_of, words_ahead, with_first, only_word};
ghost use Rattle.scripts.specs.Grammar.{verb_of, side_of, literals_of, assume_of, release_of, length_or, action_of, or_bad, call_of, line_of};
ghost use Rattle.scripts.specs.Forms.{form, action_form, terms};

use super::{Action, Line};
use crate::numbers::{literal, number};
use model::Side;
use std::alloc::{AllocError, Global};
use texts::{Token, Words};

#[derive(Clone, Copy)]
enum Verb {
    Rule,
    Assume,
    Release,
    Least,
    Why,
    Write,
}

// Buffers where a line names no length.
const LITERALS: u16 = 32;

const RECORDS: u16 = 64;

const BYTES: u16 = 60_000;

// The next word of the line, if there is one.
fn next_word<'a>(words: &mut Words<'a>) -> Option<&'a [u8]>
    ensures gives { words_ahead words.old ≡ with_first (option_map (λ x. x.now) result) (words_ahead words.new) }
{
    match words.next() {
        Token::Word(word, _) => Some(word),
        Token::LineEnd(_) | Token::End(_) => None,
    }
}

// The next word of the line, if it is the last.
fn last_word<'a>(words: &mut Words<'a>) -> Option<&'a [u8]>
    ensures value { option_map (λ x. x.now) result ≡ only_word (words_ahead words.old) }
{
    let word = next_word(words)?;
    match next_word(words) {
        None => Some(word),
        Some(_) => None,
    }
}

fn read_side(word: &[u8]) -> Option<Side>
    ensures value { result ≡ side_of word.now }
{
    match word {
        b"make" => Some(Side::Make),
        b"break" => Some(Side::Break),
        _ => None,
    }
}

fn read_verb(word: &[u8]) -> Option<Verb>
    ensures value { result ≡ verb_of word.now }
{
    match word {
        b"rule" => Some(Verb::Rule),
        b"assume" => Some(Verb::Assume),
        b"release" => Some(Verb::Release),
        b"least" => Some(Verb::Least),
        b"why" => Some(Verb::Why),
        b"write" => Some(Verb::Write),
        _ => None,
    }
}

// The literals of a rule: all words that are left.
fn read_literals(heap: Global, words: &mut Words) -> Result<Option<Vec<i8>>, AllocError>
    ensures value { IfOk result (λ ls. option_map vec_items ls ≡ literals_of (words_ahead words.old)) }
{
    let mut literals = Vec::new(heap);
    while let Some(word) = next_word(words) {
        let Some(literal) = literal(word) else {
            return Ok(None);
        };
        literals.push(literal)?;
    }
    Ok(Some(literals))
}

fn read_assume(words: &mut Words) -> Option<Action>
    ensures value { option_map action_form result ≡ assume_of (words_ahead words.old) }
{
    let l = literal(last_word(words)?)?;
    Some(Action::Assume(l))
}

fn read_release(words: &mut Words) -> Option<Action>
    ensures value { option_map action_form result ≡ release_of (words_ahead words.old) }
{
    let label = number(next_word(words)?)?;
    let issued = number(last_word(words)?)?;
    Some(Action::Release(label, issued))
}

// The length of a buffer, which may be left out.
fn length_or(words: &mut Words, default: u16) -> Option<u16>
    ensures value { result ≡ length_or default (words_ahead words.old) }
{
    match next_word(words) {
        None => Some(default),
        Some(word) => match next_word(words) {
            None => number(word),
            Some(_) => None,
        },
    }
}

fn read_action(heap: Global, verb: Verb, words: &mut Words) -> Result<Option<Action>, AllocError>
    ensures value { IfOk result (λ a. option_map action_form a ≡ action_of verb (words_ahead words.old)) }
{
    match verb {
        Verb::Rule => Ok(read_literals(heap, words)?.map(Action::Rule)),
        Verb::Assume => Ok(read_assume(words)),
        Verb::Release => Ok(read_release(words)),
        Verb::Least => Ok(length_or(words, LITERALS).map(Action::Least)),
        Verb::Why => Ok(length_or(words, LITERALS).map(Action::Why)),
        Verb::Write => Ok(length_or(words, BYTES).map(Action::Write)),
    }
}

fn read_terms(words: &mut Words) -> Line
    ensures value { form result ≡ or_bad terms (length_or 64 (words_ahead words.old)) }
{
    length_or(words, RECORDS).map_or(Line::Bad, Line::Terms)
}

// What is asked of a sheet, by the words behind its name.
fn read_call(heap: Global, side: Side, words: &mut Words) -> Result<Line, AllocError>
    ensures value { IfOk result (λ l. form l ≡ call_of (Some side) (words_ahead words.old)) }
{
    let Some(word) = next_word(words) else {
        return Ok(Line::Bad);
    };
    let Some(verb) = read_verb(word) else {
        return Ok(Line::Bad);
    };
    let action = read_action(heap, verb, words)?;
    Ok(action.map_or(Line::Bad, |action| Line::Call(side, action)))
}

// What a line asks for. A line ends at its first line feed, if it has one.
pub fn read_line(heap: Global, line: &[u8]) -> Result<Line, AllocError>
    ensures reads { IfOk result (λ l. form l ≡ line_of (words_of line.now)) }
{
    let mut words = Words::new(line);
    let Some(first) = next_word(&mut words) else {
        return Ok(Line::Nothing);
    };
    match first {
        [b'#', ..] => Ok(Line::Nothing),
        b"terms" => Ok(read_terms(&mut words)),
        _ => match read_side(first) {
            Some(side) => read_call(heap, side, &mut words),
            None => Ok(Line::Bad),
        },
    }
}
