// Writing the rules that a sheet was loaded with.
ghost use Rattle.std.specs.Prelude.{◌≡◌, replicate, IfOk};
ghost use Rattle.script_runs.specs.Outcomes.{outcome_form};
ghost use Rattle.script_runs.specs.Writing.{write_outcome};

use super::{Outcome, Source};
use dimacs_write::write;
use faults::Refusal;
use std::alloc::{AllocError, Global};

// Writes the loaded rules into a buffer of so many bytes; there are none to write of a gate text.
pub fn write_rules(heap: Global, source: Source, length: u16) -> Result<Outcome, AllocError>
    ensures answer { IfOk result (λ o. outcome_form o ≡ write_outcome source.entry (replicate length 0)) }
{
    match source {
        Source::Gates => Ok(Outcome::Bad),
        Source::Clauses(loaded) => {
            let mut buffer = vec![in heap; 0; length as usize]?;
            match write(loaded, buffer.as_mut_slice()) {
                Ok(size) => Ok(Outcome::Written(size, buffer)),
                Err(fault) => Ok(Outcome::Refused(Refusal::from(fault))),
            }
        }
    }
}
