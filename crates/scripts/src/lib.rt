// Scripts of calls on a pair of sheets: cuts a script into lines, and reads what each line asks for.
#![tactic(auto)]

ghost use Rattle.scripts.specs.Laws.{LinesLaw, ScriptLaw};

use model::Side;

mod lines;
mod numbers;
mod read;

pub use lines::Script;
pub use read::read_line;

// What a line asks of one sheet.
#[derive(Drop)]
pub enum Action {
    Rule(Vec<i8>),
    Assume(i8),
    // the label and the number of a ticket
    Release(u16, u16),
    // how many literals the buffer holds that LEAST or WHY is to write into
    Least(u16),
    Why(u16),
    // how many bytes the buffer holds that the rules are to be written into
    Write(u16),
}

// A line of a script.
#[derive(Drop)]
pub enum Line {
    // no word, or a comment
    Nothing,
    // no line has this form
    Bad,
    Call(Side, Action),
    // how many records the buffer holds that the terms are to be written into
    Terms(u16),
}

// Every call is asked for by the line that writes it; blank lines and comments ask for nothing.
pub fn lines_law()
    ensures lines_read_back { LinesLaw }
{}

// A script is cut into the lines that it was put together from.
pub fn script_law()
    ensures lines_are_told_apart { ScriptLaw }
{}
