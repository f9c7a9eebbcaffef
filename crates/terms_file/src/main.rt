// Reads two clause texts from files, takes the first N variables of each for contacts, and prints the terms that cover what the first allows and nothing that the second allows.
#![tactic(auto)]

use anyhow::anyhow;
use clauses::ClauseSolver;
use clauses::counts::VariableCounts;
use dimacs::LoadedRules;
use dimacs_load::load;
use faults::{Refusal, SheetFault};
use literals::{LiteralSet, Spaced};
use settings::Term;
use sheets::Sheet;
use std::alloc::Global;
use std::fmt::Write;
use std::{env, fs};
use terms::terms;
use witnesses::WitnessCache;

// A text has at most 4,096 rules.
const MOST_RULES: usize = 4_096;

// TERMS over new sheets, each with a witness cache.
fn terms_of_rules(
    n: usize,
    make: LoadedRules<'_>,
    brk: LoadedRules<'_>,
    out: &mut [Term],
) -> Result<usize, SheetFault> {
    let make_counts = VariableCounts::new(make.vars, n)?;
    let break_counts = VariableCounts::new(brk.vars, n)?;
    let make_solver = WitnessCache::new(ClauseSolver::new(make.rules, make_counts));
    let break_solver = WitnessCache::new(ClauseSolver::new(brk.rules, break_counts));
    let mut make_sheet = Sheet::open(make_solver, 1);
    let mut break_sheet = Sheet::open(break_solver, 2);
    terms(&mut make_sheet, &mut break_sheet, out)
}

// Loads a text into a store for its rules.
fn load_rules<'a>(
    text: &[u8],
    n: usize,
    store: &'a mut [LiteralSet],
) -> Result<LoadedRules<'a>, SheetFault> {
    let size = load(text, n, store)?;
    Ok(size.rules_in(store))
}

// Loads both texts, and writes the terms at the buffer's front.
fn terms_of_texts(
    n: usize,
    make_text: &[u8],
    break_text: &[u8],
    make_store: &mut [LiteralSet],
    break_store: &mut [LiteralSet],
    out: &mut [Term],
) -> Result<usize, SheetFault> {
    let make = load_rules(make_text, n, make_store)?;
    let brk = load_rules(break_text, n, break_store)?;
    terms_of_rules(n, make, brk, out)
}

// What the program prints: the terms, or the refusal.
fn shown(heap: Global, n: usize, answer: Result<&[Term], SheetFault>) -> anyhow::Result<String> {
    let mut out = String::new(heap);
    match answer {
        Ok(terms) => {
            let count = terms.len();
            write!(out, "terms {count}")?;
            for term in terms {
                let literals = term.literals(n);
                let spaced = Spaced {
                    literals: literals.as_slice(),
                };
                write!(out, "\nterm{spaced}")?;
            }
        }
        Err(fault) => {
            let refusal = Refusal::from(fault).brief();
            write!(out, "{refusal}")?;
        }
    }
    Ok(out)
}

fn main(rt: HostRuntime) -> anyhow::Result<()> {
    let mut args = env::args(&rt)?.skip(1);
    let (Some(make_path), Some(break_path), Some(contacts)) = (
        args.next(),
        args.next(),
        args.next(),
    ) else {
        return Err(anyhow!("usage: terms_file MAKE_FILE BREAK_FILE N"));
    };
    let n = contacts.parse::<usize>()?;
    let make_text = fs::read(&rt, make_path.as_str())?;
    let break_text = fs::read(&rt, break_path.as_str())?;
    let mut make_store = vec![in rt.alloc(); LiteralSet::empty(); MOST_RULES]?;
    let mut break_store = vec![in rt.alloc(); LiteralSet::empty(); MOST_RULES]?;
    let mut out = [Term {
        closed: 0,
        opened: 0,
    }; 64];
    let answer = terms_of_texts(
        n,
        make_text.as_slice(),
        break_text.as_slice(),
        make_store.as_mut_slice(),
        break_store.as_mut_slice(),
        &mut out,
    );
    // The whole answer goes out in one write, since the program is there to be timed.
    let shown = shown(rt.alloc(), n, answer.map(|count| &out[0..count.min(64)]))?;
    println!(rt; "{shown}")?;
    Ok(())
}
