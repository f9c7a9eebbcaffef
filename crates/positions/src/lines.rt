// How an answer is printed.
use faults::{Refusal, SheetFault};
use literals::Spaced;
use std::fmt;

// A call that writes nothing.
#[derive(Clone, Copy)]
pub struct Done {
    pub answer: Result<(), SheetFault>,
}

// A question, with the buffer that it wrote to.
#[derive(Clone, Copy)]
pub struct Written<'a> {
    pub answer: Result<usize, SheetFault>,
    pub buffer: &'a [i8],
}

impl fmt::Display for Done {
    fn fmt<W: fmt::Write>(&self, f: &mut fmt::Formatter<W>) -> fmt::Result {
        match self.answer {
            Ok(()) => write!(f, "accepted"),
            Err(fault) => {
                let refusal = Refusal::from(fault).brief();
                write!(f, "{refusal}")
            }
        }
    }
}

// The literals at the buffer's front, each with a space before it, or the refusal.
impl fmt::Display for Written<'_> {
    fn fmt<W: fmt::Write>(&self, f: &mut fmt::Formatter<W>) -> fmt::Result {
        match self.answer {
            Ok(0) => write!(f, " none"),
            Ok(size) => {
                let spaced = Spaced {
                    literals: &self.buffer[0..size.min(self.buffer.len())],
                };
                write!(f, "{spaced}")
            }
            Err(fault) => {
                let refusal = Refusal::from(fault).brief();
                write!(f, " {refusal}")
            }
        }
    }
}
