// One question to TERMS, put to sheets over clause solvers, over witness caches, over lists of settings and over two kinds at once.
use clauses::ClauseSolver;
use clauses::counts::VariableCounts;
use enumerated::ListSolver;
use faults::{Refusal, SheetFault};
use literals::{LiteralSet, Spaced};
use settings::{Setting, Term};
use sheets::Sheet;
use solver::{ContactCount, Solver};
use std::{fmt, io};
use tables::table::Table;
use terms::terms;
use witnesses::WitnessCache;

// A name for two lists of rules all of whose variables are contacts, how many contacts each has, and the answer that is due.
#[derive(Drop)]
pub struct Question {
    pub name: &'static str,
    pub make_contacts: usize,
    pub break_contacts: usize,
    pub due: &'static str,
}

// TERMS over new sheets of two solvers, of whatever kinds.
fn terms_of<M: Solver + Drop, B: Solver + Drop>(
    make: M,
    brk: B,
    out: &mut [Term],
) -> Result<usize, SheetFault> {
    let mut make = Sheet::open(make, 1);
    let mut brk = Sheet::open(brk, 2);
    terms(&mut make, &mut brk, out)
}

// The settings of at most eight contacts that meet every rule.
fn allowed(contacts: usize, rules: &[LiteralSet]) -> Table<Setting, 256> {
    let mut settings = Table::new(Setting { closed: 0 });
    for closed in 0..1 << contacts.min(8) {
        let setting = Setting { closed };
        if rules.iter().all(|rule| setting.meets_set(contacts, *rule)) {
            let _ = settings.push(setting);
        }
    }
    settings
}

// The terms at the buffer's front, or how many there are when they are many, or the refusal.
#[derive(Clone, Copy)]
struct Written<'a> {
    answer: Result<usize, SheetFault>,
    contacts: usize,
    buffer: &'a [Term],
}

impl fmt::Display for Written<'_> {
    fn fmt<W: fmt::Write>(&self, f: &mut fmt::Formatter<W>) -> fmt::Result {
        match self.answer {
            Ok(0) => write!(f, " none"),
            Ok(count) if count > 8 => write!(f, " {count} terms"),
            Ok(count) => {
                for term in self.buffer.iter().take(count) {
                    let literals = term.literals(self.contacts);
                    let spaced = Spaced {
                        literals: literals.as_slice(),
                    };
                    write!(f, "{spaced};")?;
                }
                Ok(())
            }
            Err(fault) => {
                let refusal = Refusal::from(fault).brief();
                write!(f, " {refusal}")
            }
        }
    }
}

// What came and what is due.
fn report(
    rt: &impl Print,
    question: &Question,
    kind: &str,
    answer: Result<usize, SheetFault>,
    buffer: &[Term],
) -> io::Result<()> {
    let name = question.name;
    let written = Written {
        answer,
        contacts: question.make_contacts,
        buffer,
    };
    let due = question.due;
    println!(rt; "{name}, {kind}:{written} (due {due})")
}

// How many contacts the two lists of rules have, as each kind of solver is made of it.
#[derive(Clone, Copy)]
struct Counts {
    make: ContactCount,
    brk: ContactCount,
    make_counts: VariableCounts,
    break_counts: VariableCounts,
}

impl Counts {
    fn of(question: &Question) -> Result<Self, SheetFault> {
        Ok(Counts {
            make: ContactCount::new(question.make_contacts)?,
            brk: ContactCount::new(question.break_contacts)?,
            make_counts: VariableCounts::new(question.make_contacts, question.make_contacts)?,
            break_counts: VariableCounts::new(question.break_contacts, question.break_contacts)?,
        })
    }
}

pub fn ask_all(
    rt: &impl Print,
    question: &Question,
    make: &[LiteralSet],
    brk: &[LiteralSet],
) -> io::Result<()> {
    let counts = match Counts::of(question) {
        Ok(counts) => counts,
        Err(fault) => {
            let refusal = Refusal::from(fault).brief();
            return println!(rt; "{refusal}");
        }
    };
    let make_settings = allowed(question.make_contacts, make);
    let break_settings = allowed(question.break_contacts, brk);
    let mut buffer = [Term {
        closed: 0,
        opened: 0,
    }; 64];
    let answer = terms_of(
        ClauseSolver::new(make, counts.make_counts),
        ClauseSolver::new(brk, counts.break_counts),
        &mut buffer,
    );
    report(rt, question, "clauses", answer, &buffer)?;
    let answer = terms_of(
        WitnessCache::new(ClauseSolver::new(make, counts.make_counts)),
        WitnessCache::new(ClauseSolver::new(brk, counts.break_counts)),
        &mut buffer,
    );
    report(rt, question, "caches", answer, &buffer)?;
    let answer = terms_of(
        ListSolver::new(make_settings.as_slice(), counts.make),
        ListSolver::new(break_settings.as_slice(), counts.brk),
        &mut buffer,
    );
    report(rt, question, "lists", answer, &buffer)?;
    let answer = terms_of(
        WitnessCache::new(ListSolver::new(make_settings.as_slice(), counts.make)),
        ClauseSolver::new(brk, counts.break_counts),
        &mut buffer,
    );
    report(rt, question, "cached list and clauses", answer, &buffer)
}
