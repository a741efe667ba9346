// The table of names that standing units mention, found by hash.
#![tactic(auto)]

mod asked;
mod record;
mod short_name;
mod table;

pub use record::{NOWHERE, Note};
pub use table::{NameTable, TableFull};
