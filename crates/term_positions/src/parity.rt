// MAKE allows the settings with an odd count of closed contacts, and BREAK those with an even count: every setting wants a term of its own.
use super::solvers::{Question, ask_all};
use literals::LiteralSet;
use std::io;
use tables::table::Table;

// The rule that only one setting of that many contacts does not meet.
fn all_but(contacts: u32, closed: u64) -> LiteralSet {
    LiteralSet {
        closed: !closed & ((1 << contacts.min(8)) - 1),
        opened: closed,
    }
}

// Rules of at most eight contacts that leave the settings with an odd count of closed contacts, or with an even one.
fn parity_rules(contacts: u32, odd: bool) -> Table<LiteralSet, 128> {
    let mut rules = Table::new(LiteralSet::empty());
    for closed in 0..1u64 << contacts.min(8) {
        if (closed.count_ones() % 2 == 1) != odd {
            let _ = rules.push(all_but(contacts, closed));
        }
    }
    rules
}

fn run_parity(
    rt: &impl Print,
    name: &'static str,
    contacts: u32,
    due: &'static str,
) -> io::Result<()> {
    let odd = parity_rules(contacts, true);
    let even = parity_rules(contacts, false);
    let question = Question {
        name,
        make_contacts: contacts as usize,
        break_contacts: contacts as usize,
        due,
    };
    ask_all(rt, &question, odd.as_slice(), even.as_slice())
}

pub fn run(rt: &impl Print) -> io::Result<()> {
    run_parity(rt, "odd against even of 7", 7, "64 terms")?;
    run_parity(rt, "odd against even of 8", 8, "refused 15 0")
}
