// Matrices of bits, their rows as keys, and reachability in graphs of up to 256 nodes.
#![tactic(auto)]

pub mod bank;
pub mod bits;
pub mod reach;
