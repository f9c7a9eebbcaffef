// Where a session begins.
ghost use Rattle.std.specs.Prelude.{[]};
ghost use Rattle.sheets.specs.Sheets.{sheet_meaning, New};
ghost use Rattle.session.specs.Mirrors.{Stands, new_pair};

use crate::Pair;
use sheets::Sheet;
use solver::Solver;

// Two new sheets stand at the start of a history: nothing was asked of them yet, and the guarantee holds from there on.
pub fn begin<M: Solver, B: Solver>(make: &Sheet<M>, brk: &Sheet<B>)
    ensures stands_at_the_start { New M.Solver make.now → New B.Solver brk.now → Stands M.Solver B.Solver (record { make = make.now; brk = brk.now }) (new_pair (sheet_meaning M.Solver make.now) (sheet_meaning B.Solver brk.now)) [] }
{}

impl<M: Solver, B: Solver> Pair<M, B> {
    // The same of a pair.
    pub fn begin(&self)
        ensures stands_at_the_start { New M.Solver self.now.make → New B.Solver self.now.brk → Stands M.Solver B.Solver self.now (new_pair (sheet_meaning M.Solver self.now.make) (sheet_meaning B.Solver self.now.brk)) [] }
    {
        begin(&self.make, &self.brk)
    }
}
