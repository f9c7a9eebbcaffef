// Loads a gate text into a store that the caller brings: the store's front holds the gates then.
#![tactic(auto)]

mod calls;
mod passes;

pub use calls::load;

// What a gate text says besides its gates: the numbers of inputs and of gates, and the literal that is the output.
#[derive(Clone, Copy)]
pub struct Network {
    pub inputs: usize,
    pub count: usize,
    pub output: u16,
}
