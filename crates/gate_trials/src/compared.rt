// What the solvers answer, and what is due by a plain look through all settings.
use crate::network::Network;
use clauses::ClauseSolver;
use clauses::counts::VariableCounts;
use faults::SheetFault;
use gates::GateSolver;
use literals::LiteralSet;
use networks::readable;
use settings::Setting;
use sheets::Sheet;
use solver::{ContactCount, Solver};
use tables::table::Table;
use trials::{Question, ask_under};
use witnesses::WitnessCache;

// What LEAST and WHY answer while three literals are held, each with its whole buffer.
#[derive(Clone, Copy, PartialEq)]
struct Answers {
    least: Result<usize, SheetFault>,
    setting: [i8; 8],
    why: Result<usize, SheetFault>,
    reason: [i8; 3],
}

fn answers_of<S: Solver + Drop>(solver: S, held: &[i8]) -> Answers {
    let mut sheet = Sheet::open(solver, 1);
    let mut setting = [0; 8];
    let least = ask_under(&mut sheet, Question::Least, held, &mut setting);
    let mut reason = [0; 3];
    let why = ask_under(&mut sheet, Question::Why, held, &mut reason);
    Answers {
        least,
        setting,
        why,
        reason,
    }
}

// The numbers of the choices of one held literal alone.
const WEIGHTS: [u8; 3] = [4, 2, 1];

// The literals of a choice.
fn chosen_of(held: &[i8], choice: u8) -> Table<i8, 3> {
    let mut chosen = Table::new(0);
    for (literal, weight) in held.iter().zip(WEIGHTS.iter()) {
        if choice & *weight != 0 {
            let _ = chosen.push(*literal);
        }
    }
    chosen
}

// The setting of a number, in which the first input has the highest weight.
fn setting_of(number: u32, inputs: u8) -> Setting {
    Setting {
        closed: number.reverse_bits() >> (32 - inputs.clamp(1, 8)),
    }
}

// The first setting, in the order of the numbers, that the network allows and that agrees with the chosen ones of the held literals.
fn first_allowed(network: &Network, held: &[i8], choice: u8) -> Option<Setting> {
    let chosen = chosen_of(held, choice);
    for number in 0..1u32 << network.inputs.min(8) {
        let setting = setting_of(number, network.inputs);
        if network.allows(setting) && setting.fits(32, chosen.as_slice()) {
            return Some(setting);
        }
    }
    None
}

// Literals at the front of a buffer of zeros.
fn at_front<const N: usize>(literals: &[i8]) -> [i8; N] {
    let mut buffer = [0; N];
    let size = literals.len().min(N);
    buffer[..size].copy_from_slice(&literals[..size]);
    buffer
}

fn due(network: &Network, held: &[i8]) -> Answers {
    let inputs = usize::from(network.inputs);
    match first_allowed(network, held, 7) {
        Some(setting) => Answers {
            least: Ok(inputs),
            setting: at_front(setting.literals(inputs).as_slice()),
            why: Err(SheetFault::SomeAllowed),
            reason: [0; 3],
        },
        None => {
            let choice = (0..7u8)
                .find(|choice| first_allowed(network, held, *choice).is_none())
                .unwrap_or(7);
            let reason = chosen_of(held, choice);
            Answers {
                least: Err(SheetFault::NoneAllowed),
                setting: [0; 8],
                why: Ok(reason.len()),
                reason: at_front(reason.as_slice()),
            }
        }
    }
}

// The literal of a clause text for a literal of a network; variable 0 is none.
fn clause_literal(literal: u16) -> i8 {
    let variable = (literal / 2).min(64) as i8;
    if literal % 2 == 1 {
        -variable
    } else {
        variable
    }
}

// A rule of up to three literals of a network, unless one of them is true; those that are false are left out.
fn push_rule(rules: &mut Table<LiteralSet, 160>, literals: &[u16]) {
    let mut set = LiteralSet::empty();
    for literal in literals {
        if *literal == 1 {
            return;
        }
        if *literal > 1 {
            set = set.with(clause_literal(*literal));
        }
    }
    let _ = rules.push(set);
}

// The rules that say of each gate that it is the AND of its sides, and that the output is 1.
fn rules_of(network: &Network) -> Table<LiteralSet, 160> {
    let mut rules = Table::new(LiteralSet::empty());
    let mut variable = u16::from(network.inputs) + 1;
    for gate in network.gates.as_slice() {
        let below = usize::from(variable);
        let out = variable.saturating_mul(2);
        let left = readable(gate.left, below);
        let right = readable(gate.right, below);
        push_rule(&mut rules, &[out ^ 1, left]);
        push_rule(&mut rules, &[out ^ 1, right]);
        push_rule(&mut rules, &[out, left ^ 1, right ^ 1]);
        variable = variable.saturating_add(1);
    }
    push_rule(
        &mut rules,
        &[readable(network.output, usize::from(variable))],
    );
    rules
}

// LEAST and WHY of the gate solver, of a cache over it and of the clause solver are those that are due.
pub fn is_least_right(network: &Network, held: &[i8]) -> bool {
    let inputs = usize::from(network.inputs);
    let gates = network.gates.as_slice();
    let Ok(count) = ContactCount::new(inputs) else {
        return false;
    };
    let Ok(counts) = VariableCounts::new(inputs.saturating_add(gates.len()), inputs) else {
        return false;
    };
    let due = due(network, held);
    let rules = rules_of(network);
    let below = GateSolver::new(gates, network.output, count);
    answers_of(GateSolver::new(gates, network.output, count), held) == due
        && answers_of(WitnessCache::new(below), held) == due
        && answers_of(ClauseSolver::new(rules.as_slice(), counts), held) == due
}

// Whether a setting stands and agrees with what is asked.
fn stands(network: &Network, setting: Setting, added: &[i8], bar: &[i8], asked: &[i8]) -> bool {
    network.allows(setting)
        && setting.meets(32, added)
        && !setting.fits(32, bar)
        && setting.fits(32, asked)
}

// With a rule and a bar added, ASK says no only where no setting stands, and yes with one that does.
pub fn is_ask_right(network: &Network, added: &[i8], bar: &[i8], asked: &[i8]) -> bool {
    let Ok(count) = ContactCount::new(usize::from(network.inputs)) else {
        return false;
    };
    let mut solver = GateSolver::new(network.gates.as_slice(), network.output, count);
    let (Ok(()), Ok(())) = (solver.add(added), solver.bar(bar)) else {
        return false;
    };
    match solver.ask(asked) {
        Ok(Some(setting)) => stands(network, setting, added, bar, asked),
        Ok(None) => !(0..1u32 << network.inputs.min(8)).any(|closed| stands(
            network,
            Setting { closed },
            added,
            bar,
            asked,
        )),
        Err(_) => false,
    }
}
