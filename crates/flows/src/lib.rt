// What merging layers read off a list before solving: open variables, reachability along copies, and where each source stands.
#![tactic(auto)]

mod copies;
mod opened;
mod stand;

pub use copies::copy_reach;
pub use opened::find_open;
pub use stand::{Stand, put_sources};
