// What the three engineers ask.

use script_answers::{Sources, obey_lines};
use script_runs::{PairWithTickets, Source, TicketRoom};
use session::Pair;
use sheets::Sheet;
use solver::Solver;
use std::alloc::Global;
use std::fmt::Write;

// The first holds two contacts of MAKE and asks why they cannot be closed together; the second adds a rule, gives back a ticket of the first, and brings one
// to the wrong sheet; the third gives back what is left and asks for the terms.
const FIRST: &str = "make least
make assume 1
make assume 2
make least
make why
break assume 3
break least
";

const SECOND: &str = "make release 1 1
break release 1 2
make rule -2
make why
make rule 4
make assume -1
";

const THIRD: &str = "make release 1 2
make release 1 2
make least
break release 2 1
terms
make release 1 3
terms 63
";

// One engineer's lines.
fn work<M: Solver, B: Solver>(
    heap: Global,
    pair: &mut PairWithTickets<M, B>,
    name: &str,
    script: &str,
    out: &mut String,
) -> anyhow::Result<()> {
    writeln!(out, "{name}")?;
    let sources = Sources {
        make: Source::Gates,
        brk: Source::Gates,
    };
    obey_lines(heap, pair, sources, script.as_bytes(), out)
}

// All three, one after the other.
fn work_in_turn<M: Solver, B: Solver>(
    heap: Global,
    pair: &mut PairWithTickets<M, B>,
    out: &mut String,
) -> anyhow::Result<()> {
    work(heap, pair, "the first engineer", FIRST, out)?;
    work(heap, pair, "the second", SECOND, out)?;
    work(heap, pair, "the third", THIRD, out)
}

// What a pair over two solvers answers to all three. Nothing is held at the start, and at the end every ticket that is left goes back.
pub fn answers<M: Solver + Drop, B: Solver + Drop>(
    heap: Global,
    make: M,
    brk: B,
) -> anyhow::Result<String> {
    let mut out = String::new(heap);
    let pair = Pair {
        make: Sheet::open(make, 1),
        brk: Sheet::open(brk, 2),
    };
    let room = TicketRoom::new(heap)?;
    let mut pair = PairWithTickets::new(pair, room);
    let result = work_in_turn(heap, &mut pair, &mut out);
    let _ = pair.end();
    result?;
    Ok(out)
}
