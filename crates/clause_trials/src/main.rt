// Compares the clause solver with a plain look through all values of the variables, on pseudo-random rules.
#![tactic(auto)]

use clauses::ClauseSolver;
use clauses::counts::VariableCounts;
use literals::LiteralSet;
use random_numbers::Random;
use search::mask_below;
use settings::Setting;
use solver::Solver;
use std::alloc::{AllocError, Global};
use tables::table::Table;

const TRIALS: u32 = 2_000;

// Up to 24 loaded rules over the variables; an added rule, a bar and a question over the contacts, which come first.
#[derive(Drop)]
struct Trial {
    contacts: u8,
    inner: u8,
    rules: Vec<Table<i8, 3>>,
    added: Table<i8, 3>,
    bar: Table<i8, 2>,
    asked: Table<i8, 1>,
}

// Three outcomes that are counted; none has a value.
enum Verdict {
    Yes,
    No,
    Wrong,
}

// Of 24 rules that are drawn, as many from the front as are drawn at first.
fn drawn(heap: Global, random: &mut Random) -> Result<Trial, AllocError> {
    let contacts = random.below(5) as u8 + 1;
    let inner = random.below(4) as u8;
    let count = random.below(25);
    let mut rules = Vec::new(heap);
    for place in 0..24 {
        let rule = random.literals(contacts + inner);
        if place < count {
            rules.push(rule)?;
        }
    }
    Ok(Trial {
        contacts,
        inner,
        rules,
        added: random.literals(contacts),
        bar: random.literals(contacts),
        asked: random.literals(contacts),
    })
}

impl Trial {
    // Whether values of the variables, as a setting of as many contacts, meet the loaded rules and the added one, agree with the question and are not covered by the bar.
    fn passes(&self, values: Setting) -> bool {
        self.rules
            .iter()
            .all(|rule| values.meets(32, rule.as_slice()))
            && values.meets(32, self.added.as_slice())
            && !values.fits(32, self.bar.as_slice())
            && values.fits(32, self.asked.as_slice())
    }

    // Whether some values pass whose contacts are those of the setting, or of any.
    fn some_pass(&self, setting: Option<Setting>) -> bool {
        let contacts = mask_below(self.contacts);
        (0..256u32).any(|closed| {
            let same = setting.is_none_or(|found| u64::from(closed ^ found.closed) & contacts == 0);
            same && self.passes(Setting { closed })
        })
    }

    fn verdict(&self, heap: Global) -> Result<Verdict, AllocError> {
        let variables = usize::from(self.contacts) + usize::from(self.inner);
        let records = self
            .rules
            .iter()
            .map(|rule| LiteralSet::from(rule.as_slice()))
            .collect::<Vec<LiteralSet>>(heap)?;
        let Ok(counts) = VariableCounts::new(variables, usize::from(self.contacts)) else {
            return Ok(Verdict::Wrong);
        };
        let mut solver = ClauseSolver::new(records.as_slice(), counts);
        let (Ok(()), Ok(())) = (
            solver.add(self.added.as_slice()),
            solver.bar(self.bar.as_slice()),
        ) else {
            return Ok(Verdict::Wrong);
        };
        let verdict = match solver.ask(self.asked.as_slice()) {
            Ok(Some(setting)) if self.some_pass(Some(setting)) => Verdict::Yes,
            Ok(None) if !self.some_pass(None) => Verdict::No,
            _ => Verdict::Wrong,
        };
        Ok(verdict)
    }
}

fn main(rt: HostRuntime) -> anyhow::Result<()> {
    let mut random = Random::seeded();
    let mut yes = 0u32;
    let mut no = 0u32;
    let mut wrong = 0u32;
    for _ in 0..TRIALS {
        match drawn(rt.alloc(), &mut random)?.verdict(rt.alloc())? {
            Verdict::Yes => yes = yes.saturating_add(1),
            Verdict::No => no = no.saturating_add(1),
            Verdict::Wrong => wrong = wrong.saturating_add(1),
        }
    }
    println!(rt; "yes {yes} no {no} wrong {wrong}")?;
    Ok(())
}
