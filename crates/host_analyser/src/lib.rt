// The analyser of a host, over any engine.
#![tactic(auto)]

mod analyser;
mod asking;
mod listing;
mod refusal;
mod settling;

pub use analyser::Analyser;
pub use refusal::{Refusal, RoomFault};
