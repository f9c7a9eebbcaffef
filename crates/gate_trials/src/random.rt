// Pseudo-random networks.
use crate::network::Network;
use aiger::Gate;
use random_numbers::Random;

// Each side of a gate is below the gate.
pub fn network(random: &mut Random) -> Network {
    let mut network = Network::empty(random.below(6) as u8 + 1);
    for _ in 0..random.below(25) {
        let limit = network.next_literal().max(1);
        let left = random.below(limit);
        let right = random.below(limit);
        let _ = network.push(Gate { left, right });
    }
    network.output = random.below(network.next_literal().max(1));
    network
}

// Gates and output read any variable, also those that no text lets them read.
pub fn unordered_network(random: &mut Random) -> Network {
    let mut network = Network::empty(random.below(6) as u8 + 1);
    for _ in 0..random.below(25) {
        let left = random.below(80);
        let right = random.below(80);
        let _ = network.push(Gate { left, right });
    }
    network.output = random.below(80);
    network
}
