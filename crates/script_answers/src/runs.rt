// Obeying a script, line by line.
ghost use Rattle.std.specs.Prelude.{◌≡◌};
ghost use Rattle.sheets.specs.Sheets.{sheet_meaning};
ghost use Rattle.script_runs.specs.Fresh.{Fresh};
ghost use Rattle.script_runs.specs.Keeping.{Keeps};

use model::Side;
use script_runs::{Kept, Outcome, PairWithTickets, Source, TicketRoom, obey, write_rules};
use scripts::{Action, Line, Script, read_line};
use session::Pair;
use sheets::Sheet;
use solver::Solver;
use std::alloc::Global;
use std::fmt::Write;

// What each sheet was loaded with.
#[derive(Clone, Copy)]
pub struct Sources<'a> {
    pub make: Source<'a>,
    pub brk: Source<'a>,
}

// Obeys a line that was read. The loaded rules are written from the store that they lie in; all else is a call on the two lent sheets.
fn come_of<M: Solver, B: Solver>(
    heap: Global,
    make: &mut Sheet<M>,
    brk: &mut Sheet<B>,
    sources: Sources,
    kept: &mut Kept,
    line: Line,
) -> anyhow::Result<Outcome>
    requires keeps { Keeps (sheet_meaning M.Solver make.old) (sheet_meaning B.Solver brk.old) kept.old }
    ensures keeps { Keeps (sheet_meaning M.Solver make.new) (sheet_meaning B.Solver brk.new) kept.new }
{
    match line {
        Line::Call(Side::Make, Action::Write(length)) => {
            Ok(write_rules(heap, sources.make, length)?)
        }
        Line::Call(Side::Break, Action::Write(length)) => {
            Ok(write_rules(heap, sources.brk, length)?)
        }
        line => Ok(obey(heap, make, brk, kept, line)?),
    }
}

// Obeys the lines of a script on two lent sheets, one after the other, and writes what comes of them. The tickets are kept, so that another script can go on from there.
pub fn obey_lines_lent<M: Solver, B: Solver>(
    heap: Global,
    make: &mut Sheet<M>,
    brk: &mut Sheet<B>,
    sources: Sources,
    kept: &mut Kept,
    script: &[u8],
    out: &mut String,
) -> anyhow::Result<()>
    requires keeps { Keeps (sheet_meaning M.Solver make.old) (sheet_meaning B.Solver brk.old) kept.old }
    ensures keeps { Keeps (sheet_meaning M.Solver make.new) (sheet_meaning B.Solver brk.new) kept.new }
{
    for line in Script::new(script) {
        let line = read_line(heap, line)?;
        let outcome = come_of(heap, make, brk, sources, kept, line)?;
        write!(out, "{outcome}")?;
    }
    Ok(())
}

// The same on a pair with its tickets.
pub fn obey_lines<M: Solver, B: Solver>(
    heap: Global,
    pair: &mut PairWithTickets<M, B>,
    sources: Sources,
    script: &[u8],
    out: &mut String,
) -> anyhow::Result<()> {
    obey_lines_lent(
        heap,
        &mut pair.pair.make,
        &mut pair.pair.brk,
        sources,
        &mut pair.kept,
        script,
        out,
    )
}

// Obeys a script on a pair on which nothing is held, and writes what comes of it. All tickets that are left at its end are given back.
pub fn run<M: Solver + Drop, B: Solver + Drop>(
    heap: Global,
    pair: Pair<M, B>,
    sources: Sources,
    script: &[u8],
    out: &mut String,
) -> anyhow::Result<()>
    requires make_fresh { Fresh 1 (sheet_meaning M.Solver pair.make) }
    requires break_fresh { Fresh 2 (sheet_meaning B.Solver pair.brk) }
{
    let room = TicketRoom::new(heap)?;
    let mut pair = PairWithTickets::new(pair, room);
    let result = obey_lines(heap, &mut pair, sources, script, out);
    let _ = pair.end();
    result
}
