// Compares the gate solver with a plain look through all settings and with the clause solver on the same function, on pseudo-random and on named networks.
#![tactic(auto)]

mod compared;
mod network;
mod random;

use compared::{is_ask_right, is_least_right};
use network::Network;
use random_numbers::Random;
use tables::table::Table;

const TRIALS: u32 = 1_500;

#[derive(Drop)]
struct Count {
    right: u32,
    wrong: u32,
}

impl Count {
    fn add(&mut self, right: bool) {
        if right {
            self.right = self.right.saturating_add(1);
        } else {
            self.wrong = self.wrong.saturating_add(1);
        }
    }
}

// Questions about one network: with literals held, and with a rule and a bar added.
fn is_right(network: &Network, random: &mut Random) -> bool {
    let inputs = network.inputs.clamp(1, 32);
    let held: Table<i8, 3> = random.literals(inputs);
    let added: Table<i8, 3> = random.literals(inputs);
    let bar: Table<i8, 3> = random.literals(inputs);
    is_least_right(network, held.as_slice())
        && is_ask_right(
            network,
            added.as_slice(),
            &bar.as_slice()[0..2],
            &held.as_slice()[0..1],
        )
}

fn run_random(random: &mut Random) -> Count {
    let mut count = Count { right: 0, wrong: 0 };
    for trial in 0..TRIALS {
        let network = if trial % 4 == 0 {
            random::unordered_network(random)
        } else {
            random::network(random)
        };
        count.add(is_right(&network, random));
    }
    count
}

// Each question with other literals, sixteen times.
fn run_named(network: &Network, random: &mut Random) -> Count {
    let mut count = Count { right: 0, wrong: 0 };
    for _ in 0..16 {
        count.add(is_right(network, random));
    }
    count
}

fn print_count(rt: &impl Print, name: &str, count: Count) -> std::io::Result<()> {
    let right = count.right;
    let wrong = count.wrong;
    println!(rt; "{name}: right {right} wrong {wrong}")
}

fn main(rt: HostRuntime) -> anyhow::Result<()> {
    let mut random = Random::seeded();
    print_count(&rt, "random networks", run_random(&mut random))?;
    print_count(
        &rt,
        "parity of 6",
        run_named(&Network::parity(), &mut random),
    )?;
    print_count(
        &rt,
        "majority of 5",
        run_named(&Network::majority(), &mut random),
    )?;
    print_count(
        &rt,
        "comparator 3 by 3",
        run_named(&Network::comparator(), &mut random),
    )?;
    print_count(
        &rt,
        "sum of 2 and 2 bits is 3",
        run_named(&Network::adder(), &mut random),
    )?;
    Ok(())
}
