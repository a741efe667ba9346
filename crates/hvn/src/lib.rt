// Variables of equal values: what their components of the copy graph take in.
#![tactic(auto)]

mod classes;
mod element;
mod flow;
mod sets;

pub use classes::Hvn;
