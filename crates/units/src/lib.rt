// What the statements of a unit text say: the words of each, and the pointers of its indirect calls.
#![tactic(auto)]

pub mod calls;
pub mod listing;
pub mod names;
pub mod words;
