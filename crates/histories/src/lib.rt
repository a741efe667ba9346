// Whole histories of an analyser's calls: their replies, and the comparison of two of them.
#![tactic(auto)]

mod call;
mod history;
mod progress;

pub use call::{Answer, Call, Question, Reply};
pub use history::{AuditReport, audit, replay};
pub use progress::Progress;
