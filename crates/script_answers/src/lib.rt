// Scripts from their bytes to the lines that are printed of them.
#![tactic(auto)]

mod runs;

pub use runs::{Sources, obey_lines, obey_lines_lent, run};
