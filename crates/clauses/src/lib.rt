// The clause solver: a setting is in its base set when some values of the inner variables, numbered above the contacts, meet all loaded rules together with it.
#![tactic(auto)]

ghost use Rattle.std.specs.Prelude.{◌≡◌, ◌+◌, None};
ghost use Rattle.literals.specs.Literals.{first_unnamed};
ghost use Rattle.solver.specs.Meaning.{Answers};
ghost use Rattle.rules.specs.Rules.{has_unmet};
ghost use Rattle.clauses.specs.Clauses.{loaded_meaning, clause_contacts, clause_variables, clause_base, clause_added, clause_bars, clause_meaning, clause_good, clause_scan, clause_unmet};

use additions::Additions;
use counts::VariableCounts;
use faults::SolverFault;
use literals::{LiteralSet, find_unnamed};
use rules::{Finding, Tally, find_forced, find_forced_in_both};
use search::{Assignment, Found, Look};
use settings::Setting;
use solver::Solver;

pub mod counts;

// The loaded rules lie as records in the store that the caller lends.
#[derive(Drop)]
pub struct ClauseSolver<'a> {
    rules: &'a [LiteralSet],
    counts: VariableCounts,
    additions: Additions,
}

impl<'a> ClauseSolver<'a> {
    // A solver over lent records, with no added rule and no bar. Literals of a record beyond the variables play no part.
    pub fn new(rules: &'a [LiteralSet], counts: VariableCounts) -> Self
        ensures meaning { clause_meaning result ≡ loaded_meaning counts.contacts counts.inner rules.now }
        ensures rules { result.rules.now ≡ rules.now }
    {
        ClauseSolver {
            rules,
            counts,
            additions: Additions::none(),
        }
    }

    // The loaded rules.
    pub fn rules(&self) -> &'a [LiteralSet]
        ensures loaded { result.now ≡ self.now.rules.now }
    {
        &self.rules[..]
    }

    // The number of contacts and inner variables.
    pub fn variable_count(&self) -> usize
        ensures count { result ≡ self.now.counts.contacts + self.now.counts.inner }
    {
        usize::from(self.counts.variables())
    }
}

impl ClauseSolver<'_> {
    // The first rule that forces a literal or has failed: among the loaded rules, then the added ones, then the bars as rules.
    fn scan(&self, assignment: Assignment) -> Option<Finding>
        ensures first { result ≡ clause_scan self.now assignment }
    {
        let (added, bars) = (self.additions.rules(), self.additions.bars());
        let contacts = self.counts.contacts;
        let first = find_forced(self.rules, false, self.counts.variables(), assignment);
        first.or_else(|| find_forced_in_both(added, bars, contacts, assignment))
    }

    // How often each variable occurs in the shortest rules that are not met, of all three kinds.
    fn tally(&self, assignment: Assignment) -> Tally
        ensures unmet { has_unmet result ≡ clause_unmet self.now assignment }
    {
        let contacts = self.counts.contacts;
        let mut tally = Tally::empty();
        tally.add(self.rules, false, self.counts.variables(), assignment);
        tally.add(self.additions.rules(), false, contacts, assignment);
        tally.add(self.additions.bars(), true, contacts, assignment);
        tally
    }

    // A standing setting that agrees with the literals, each of which names a contact; none exactly where there is none.
    fn answer(&self, literals: &[i8]) -> Option<Setting>
        requires named { first_unnamed self.now.counts.contacts literals.now ≡ None }
        ensures answer { Answers (clause_meaning self.now) literals.now result }
    {
        let found = search::find(self, LiteralSet::from(literals).into())?;
        Some(found.into())
    }
}

impl<'a> Look for ClauseSolver<'a> {
    ghost size = { clause_variables };

    ghost good = { clause_good };

    ghost few = { λ s. s.counts.few_variables };

    fn variables(&self) -> u8 {
        self.counts.variables()
    }

    fn look(&self, assignment: Assignment) -> Found {
        match self.scan(assignment) {
            Some(finding) => finding.into(),
            None => match self
                .tally(assignment)
                .choose(self.counts.variables(), assignment)
            {
                Some(variable) => Found::Split(variable),
                None => Found::Met,
            },
        }
    }
}

impl<'a> Solver for ClauseSolver<'a> {
    ghost size = { clause_contacts };

    ghost base = { clause_base };

    ghost added = { clause_added };

    ghost bars = { clause_bars };

    ghost few = { λ s. (s.counts.some_contact, s.counts.few_contacts) };

    fn contacts(&self) -> usize {
        usize::from(self.counts.contacts)
    }

    fn ask(&mut self, literals: &[i8]) -> Result<Option<Setting>, SolverFault> {
        if let Some(place) = find_unnamed(self.counts.contacts as usize, literals) {
            return Err(SolverFault::BadLiteral(place));
        }
        Ok(self.answer(literals))
    }

    fn add(&mut self, literals: &[i8]) -> Result<(), SolverFault> {
        self.additions.add(self.counts.contacts as usize, literals)
    }

    fn bar(&mut self, literals: &[i8]) -> Result<(), SolverFault> {
        self.additions.bar(self.counts.contacts as usize, literals)
    }

    fn clear(&mut self) {
        self.additions.clear_bars();
    }
}
