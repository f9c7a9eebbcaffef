// A pair of sheets.
use sheets::Sheet;
use solver::Solver;

// MAKE allows the settings that a card's terms have to cover, BREAK those that they must not.
#[derive(Drop)]
pub struct Pair<M: Solver, B: Solver> {
    pub make: Sheet<M>,
    pub brk: Sheet<B>,
}
