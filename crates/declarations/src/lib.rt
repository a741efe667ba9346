// The declaration rules of unit texts: which names are declared, and the earliest that breaks a rule.
#![tactic(auto)]

pub mod check;
pub mod cursor;
pub mod mention;
mod mentions;
