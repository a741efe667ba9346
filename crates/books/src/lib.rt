// Several unit texts that stand together: their table of names, their list, and the laws that an analyser of them rests on.
#![tactic(auto)]

pub mod laws;
