// The grammar of unit texts: items, read from lexemes.
#![tactic(auto)]

pub mod item;
pub mod reader;
pub mod state;
mod step;
pub mod unit;
pub mod unit_text;
