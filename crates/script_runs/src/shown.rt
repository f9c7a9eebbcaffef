// What is printed of an outcome.
use super::Outcome;
use literals::Spaced;
use settings::Term;
use std::fmt;

// The first entries of a buffer, as many as were written.
fn front<T>(buffer: &[T], count: usize) -> &[T] {
    &buffer[..count.min(buffer.len())]
}

// A line for each term of n contacts.
#[derive(Clone, Copy)]
struct TermLines<'a> {
    n: usize,
    terms: &'a [Term],
}

impl fmt::Display for TermLines<'_> {
    fn fmt<W: fmt::Write>(&self, f: &mut fmt::Formatter<W>) -> fmt::Result {
        for term in self.terms {
            let literals = term.literals(self.n);
            let spaced = Spaced {
                literals: literals.as_slice(),
            };
            writeln!(f, "term{spaced}")?;
        }
        Ok(())
    }
}

// The lines of an outcome; a written text, which is ASCII, ends its own last line.
impl fmt::Display for Outcome {
    fn fmt<W: fmt::Write>(&self, f: &mut fmt::Formatter<W>) -> fmt::Result {
        match self {
            Outcome::Silent => Ok(()),
            Outcome::Bad => writeln!(f, "bad"),
            Outcome::NoTicket => writeln!(f, "no ticket"),
            Outcome::Done => writeln!(f, "ok"),
            Outcome::Issued(label, number) => writeln!(f, "ticket {label} {number}"),
            Outcome::Least(count, buffer) => {
                let spaced = Spaced {
                    literals: front(buffer.as_slice(), *count),
                };
                writeln!(f, "least{spaced}")
            }
            Outcome::Why(count, buffer) => {
                let spaced = Spaced {
                    literals: front(buffer.as_slice(), *count),
                };
                writeln!(f, "why{spaced}")
            }
            Outcome::Terms(n, count, buffer) => {
                let lines = TermLines {
                    n: *n,
                    terms: front(buffer.as_slice(), *count),
                };
                let count = lines.terms.len();
                write!(f, "terms {count}\n{lines}")
            }
            Outcome::Written(count, buffer) => {
                let text = front(buffer.as_slice(), *count);
                let length = text.len();
                writeln!(f, "write {length}")?;
                for byte in text {
                    f.write_char(char::from(*byte))?;
                }
                Ok(())
            }
            Outcome::Refused(refusal) => writeln!(f, "{refusal}"),
        }
    }
}
