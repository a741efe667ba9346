// The command line.
use crate::failure::Failure;
use std::env;

#[derive(Drop)]
pub enum Command {
    Help,
    Version,
    Audit(Option<String>),
}

pub const USAGE: &str = "usage: hollowsieve [JOURNAL]

Audits a host's journal of calls: replays it from a new analyser, prints one line a call,
then loads the texts that stand at the end into a fresh analyser and compares the two.
Without JOURNAL the journal is read from standard input.

journal, one call a line (# and empty lines are passed over):
  load U FILE    enter FILE's text under unit number U, 0 to 7
  unload U       strike it out
FILE is named from the journal's folder, or from the current one on standard input.

options:
  --help         this text
  --version      the program's version and the toolchain it is proved with";

pub const VERSION: &str = "hollowsieve 0.1.0 (rattle-kit-13f logic dac8208d650f15bf)";

// What the command line asks for.
pub fn read_args(rt: &HostRuntime) -> Result<Command, Failure> {
    let args = env::args(rt).map_err(|_| Failure::ArgumentNotText)?;
    let mut journal = None;
    for arg in args.skip(1) {
        match arg.as_str() {
            "--help" => return Ok(Command::Help),
            "--version" => return Ok(Command::Version),
            word if word.starts_with('-') => return Err(Failure::NoOption(arg)),
            _ if journal.is_some() => return Err(Failure::SecondJournal(arg)),
            _ => journal = Some(arg),
        }
    }
    Ok(Command::Audit(journal))
}
