// Variables with equal marks: the sources that stand at the variables which reach them.
#![tactic(auto)]

mod classes;
mod mark;

pub use classes::Hu;
