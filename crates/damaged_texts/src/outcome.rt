// What the loading of a text comes to.
use faults::Layer;
use std::fmt;

// A refusal is the bare number, place and layer that the two formats ask for, since each row of a table has them so: as `Refusal` a row would say no more in three lines.
#[derive(Clone, Copy, PartialEq)]
pub enum Outcome {
    // the variables and rules of a clause text, or the inputs and gates of a gate text
    Accepted(usize, usize),
    // the refusal's number, place and layer
    Refused(u8, usize, Layer),
    // a record changed that should be as before the call
    Touched,
}

impl fmt::Display for Outcome {
    fn fmt<W: fmt::Write>(&self, f: &mut fmt::Formatter<W>) -> fmt::Result {
        match self {
            Outcome::Accepted(width, count) => write!(f, "accepted {width} {count}"),
            Outcome::Refused(number, place, layer) => write!(f, "refused {number} {place} {layer}"),
            Outcome::Touched => write!(f, "a changed store"),
        }
    }
}
