// One of two engines as an engine, one of two stores as a store: so a pile can be chosen while a program runs.
#![tactic(auto)]

mod choice;
mod store;

pub use choice::Choice;
