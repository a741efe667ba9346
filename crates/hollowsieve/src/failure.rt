// Why the program stops without a report.
use std::alloc::{AllocError, Global};
use std::fmt::Display;
use std::io;
use thiserror::Error;

#[derive(Debug, Drop, Error)]
pub enum Failure {
    #[error("an argument is not UTF-8 text")]
    ArgumentNotText,
    #[error("'{0}' is no option; see --help")]
    NoOption(String),
    #[error("'{0}' is a second journal; see --help")]
    SecondJournal(String),
    #[error("cannot read {file}: {error}")]
    Unreadable {
        file: String,
        error: io::Error,
    },
    #[error("{journal}, line {line}: {what}")]
    Line {
        journal: String,
        line: usize,
        what: String,
    },
    #[error("the fresh analyser does not agree")]
    Disagreement,
    #[error("out of memory")]
    Memory(#[from(alloc)] AllocError),
    // Only writing to standard output turns its error by this: reading says which file it was.
    #[error("cannot write to standard output")]
    Output(#[from] io::Error),
}

// These make a failure for `try_map_err`: without memory for its text it is another one.
impl Failure {
    pub fn unreadable(heap: Global, file: &str, error: io::Error) -> Result<Failure, Failure> {
        let file = String::from_str(heap, file)?;
        Ok(Failure::Unreadable { file, error })
    }

    pub fn at_line(
        heap: Global,
        journal: &str,
        line: usize,
        what: impl Display + Drop,
    ) -> Result<Failure, Failure> {
        let journal = String::from_str(heap, journal)?;
        let what = format!(in heap; "{what}")?;
        Ok(Failure::Line {
            journal,
            line,
            what,
        })
    }
}
