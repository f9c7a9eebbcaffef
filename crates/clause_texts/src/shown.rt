// How an answer to LEAST prints.
ghost use Rattle.std.specs.Prelude.{◌≡◌, Some};
ghost use Rattle.clause_texts.specs.Shown.{least_text};

use faults::{Refusal, SheetFault};
use literals::Spaced;
use std::fmt;

// The number of contacts and their literals in two lines, or a refusal.
#[derive(Clone, Copy)]
pub struct LeastLines<'a> {
    pub answer: Result<&'a [i8], SheetFault>,
}

impl fmt::Display for LeastLines<'_> {
    ghost output = { λ lines. Some (least_text lines) };

    fn fmt<W: fmt::Write>(&self, f: &mut fmt::Formatter<W>) -> fmt::Result {
        match self.answer {
            Ok(literals) => {
                let n = literals.len();
                let spaced = Spaced { literals };
                write!(f, "contacts {n}\nleast{spaced}")
            }
            Err(fault) => {
                let refusal = Refusal::from(fault).brief();
                write!(f, "{refusal}")
            }
        }
    }
}
