// The lines of a journal: one call a line, words apart by blanks; empty lines and lines that begin with # are passed over.
use thiserror::Error;

#[derive(Clone, Copy)]
pub enum Entry<'a> {
    Unload { unit: u32 },
    Load { unit: u32, file: &'a str },
}

// What is wrong with a line.
#[derive(Clone, Copy, Debug, Error)]
pub enum BadLine<'a> {
    #[error("'{0}' is no call; the calls are load U FILE and unload U")]
    UnknownCall(&'a str),
    #[error("the call is written {0}")]
    Form(&'static str),
    #[error("'{0}' is no unit number")]
    NoUnit(&'a str),
}

// A unit number in decimal digits; `parse` alone would take a sign too.
fn unit<'a>(word: &'a str) -> Result<u32, BadLine<'a>> {
    if word.bytes().all(|b| b.is_ascii_digit()) {
        word.parse().map_err(|_| BadLine::NoUnit(word))
    } else {
        Err(BadLine::NoUnit(word))
    }
}

// The call on a line, if the line has one.
pub fn read_line<'a>(line: &'a str) -> Result<Option<Entry<'a>>, BadLine<'a>> {
    let mut words = line.split_ascii_whitespace();
    let Some(call) = words.next() else {
        return Ok(None);
    };
    // before the rest is split: comments may be long
    if call.starts_with('#') {
        return Ok(None);
    }
    let arguments = [words.next(), words.next(), words.next()];
    match (call, arguments) {
        ("load", [Some(number), Some(file), None]) => Ok(Some(Entry::Load {
            unit: unit(number)?,
            file,
        })),
        ("load", _) => Err(BadLine::Form("load U FILE")),
        ("unload", [Some(number), None, _]) => Ok(Some(Entry::Unload {
            unit: unit(number)?,
        })),
        ("unload", _) => Err(BadLine::Form("unload U")),
        _ => Err(BadLine::UnknownCall(call)),
    }
}
