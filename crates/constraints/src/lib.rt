// Inclusion constraints: words, blocks, the list of both, and the laws of the smallest solution that solvers and merging layers rest on.
#![tactic(auto)]

mod constraint;
mod laws;
mod list;

pub use constraint::Constraint;
pub use laws::{counting_pairs, known_outcomes, merging, numbers_of_variables, smallest_solution};
pub use list::{ConstraintList, ListFault};
