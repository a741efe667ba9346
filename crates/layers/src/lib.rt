// Merging layers: variables of one class are replaced by one of them before the engine below settles.
#![tactic(auto)]

mod merging;
mod plan;
mod reduce;
mod represent;

pub use merging::{Merge, Merging};
