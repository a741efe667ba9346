// The standing units of a host: their texts, and the table of their names.
#![tactic(auto)]

mod cursor;
mod firsts;
pub mod list;
mod lister;
mod lookup;
mod passes;
mod place;
pub mod refusal;
pub mod standing_units;
