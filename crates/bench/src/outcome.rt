// What an engine makes of a list.
use crate::case::Case;
use engine::{Engine, EngineFault, Overflow};
use std::fmt;

// Stays: no `Result` of pairs and digest, since outcomes of two solvers are compared, and these name different pairs that found no room.
#[derive(Clone, Copy, PartialEq, Eq)]
pub enum Outcome {
    // how many pairs, and a digest of all rows
    Settled { pairs: u32, digest: u32 },
    // the word at which the list stopped fitting
    NoRoom { position: u16, depth: u8 },
    // any other refusal
    Refused(EngineFault),
}

impl From<EngineFault> for Outcome {
    fn from(fault: EngineFault) -> Outcome {
        match fault {
            EngineFault::NoRoom(
                Overflow {
                    position,
                    depth,
                    ..
                },
            ) => Outcome::NoRoom { position, depth },
            _ => Outcome::Refused(fault),
        }
    }
}

impl fmt::Display for Outcome {
    fn fmt<W: fmt::Write>(&self, f: &mut fmt::Formatter<W>) -> fmt::Result {
        match self {
            Outcome::Settled { pairs, digest } => write!(f, "{pairs} pairs, digest {digest}"),
            Outcome::NoRoom { position, depth } => write!(
                f,
                "no room at position {position}, depth {depth}"
            ),
            Outcome::Refused(fault) => write!(f, "refused {}", fault.number()),
        }
    }
}

// The digest with every object of row v.
fn add_row<E: Engine>(engine: &mut E, v: u16, digest: u32) -> Result<u32, EngineFault> {
    let mut sum = digest;
    let mut at: u16 = 0;
    // Stays: a row has at most 256 objects, so a count ends the walk with no proof of what `next` answers.
    for _ in 0..256 {
        let Some(o) = engine.next(v, at)? else {
            break;
        };
        sum = sum
            .wrapping_mul(31)
            .wrapping_add(u32::from(o))
            .wrapping_add(u32::from(v) * 256);
        at = o.saturating_add(1);
    }
    Ok(sum)
}

fn solve<E: Engine>(engine: &mut E, case: &Case) -> Result<Outcome, EngineFault> {
    engine.clear();
    let mut variables: u16 = 0;
    for n in &case.blocks {
        variables = engine.block(*n)?.saturating_add(u16::from(*n));
    }
    for w in &case.words {
        engine.add(*w)?;
    }
    engine.settle()?;
    let mut pairs: u32 = 0;
    let mut digest: u32 = 0;
    for v in 0..variables {
        pairs = pairs.saturating_add(u32::from(engine.size(v)?));
        digest = add_row(engine, v, digest)?;
    }
    Ok(Outcome::Settled { pairs, digest })
}

pub fn run_list<E: Engine>(engine: &mut E, case: &Case) -> Outcome {
    solve(engine, case).unwrap_or_else(Outcome::from)
}
