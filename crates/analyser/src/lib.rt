// The analyser of a host: which unit texts stand, the calls on them, and whole histories of calls.
#![tactic(auto)]

mod analyser;
mod history;
mod place;
mod refusal;
#[cfg(test)]
mod tests;

pub use analyser::Analyser;
pub use history::{AuditReport, audit, replay};
pub use refusal::Refusal;

// One call of a host, with its arguments.
#[derive(Clone, Copy)]
pub enum Call<'a> {
    Unload { unit: u32 },
    Load { unit: u32, text: &'a [u8] },
}

// What a call that is not refused has done.
#[derive(Clone, Copy, PartialEq, Eq, Debug, Drop)]
pub enum Done {
    Loaded,
    Unloaded,
}

// What a call is answered.
pub type Reply = Result<Done, Refusal>;
