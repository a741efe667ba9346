// The lines that the program prints. Others parse them: their form is fixed.
use analyser::{Done, Refusal, Reply};
use grammar::unit::UnitFault;
use lexemes::location::Location;
use std::fmt;

// What a refusal means, in words.
fn meaning(refusal: Refusal) -> &'static str {
    match refusal {
        Refusal::NoSuchUnit => "no such unit number",
        Refusal::UnitStands => "the unit stands already",
        Refusal::Text(UnitFault::TooLong) => "text too long",
        Refusal::Text(UnitFault::Grammar(_)) => "grammar",
        Refusal::Text(UnitFault::Declaration(_)) => "declaration",
        Refusal::NothingStands => "nothing stands",
    }
}

// Where in its text a load is at fault.
fn location(refusal: Refusal) -> Option<Location> {
    match refusal {
        Refusal::Text(fault) => fault.location(),
        _ => None,
    }
}

// A call as written, with single blanks, and its reply.
#[derive(Clone, Copy)]
pub struct CallLine<'a> {
    pub call: &'a str,
    pub reply: Reply,
}

impl fmt::Display for CallLine<'_> {
    fn fmt<W: fmt::Write>(&self, f: &mut fmt::Formatter<W>) -> fmt::Result {
        for (i, word) in self.call.split_ascii_whitespace().enumerate() {
            if i > 0 {
                f.write_char(' ')?;
            }
            f.write_str(word)?;
        }
        match self.reply {
            Ok(Done::Loaded) => f.write_str(": loaded"),
            Ok(Done::Unloaded) => f.write_str(": unloaded"),
            Err(refusal) => {
                let number = refusal.number();
                let words = meaning(refusal);
                write!(f, ": refused {number} ({words})")?;
                match location(refusal) {
                    Some(Location { offset, line }) => write!(
                        f,
                        " at offset {offset}, line {line}"
                    ),
                    None => Ok(()),
                }
            }
        }
    }
}

// All that a reply tells: of a refusal its number and place.
fn told(reply: Reply) -> Result<Done, (u32, Option<Location>)> {
    reply.map_err(|refusal| (refusal.number(), location(refusal)))
}

// How many replies differ, place by place.
pub fn differing(first: &[Reply], second: &[Reply]) -> usize {
    first
        .iter()
        .zip(second.iter())
        .filter(|(a, b)| told(**a) != told(**b))
        .count()
}
