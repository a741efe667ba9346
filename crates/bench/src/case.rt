// Lists to solve.
use constraints::Constraint;
use std::alloc::{AllocError, Global};
use std::iter;

// Blocks and words.
#[derive(Drop)]
pub struct Case {
    pub blocks: Vec<u8>,
    pub words: Vec<u32>,
}

impl Case {
    // So many blocks of one variable each, and these words.
    pub fn of(heap: Global, variables: u16, words: &[u32]) -> Result<Case, AllocError> {
        Ok(Case {
            blocks: vec![in heap; 1u8; usize::from(variables)]?,
            words: words.to_vec(heap)?,
        })
    }
}

// The first `objects` variables as objects in row 0 of the rest, copied on to `rows` others.
pub fn copied(heap: Global, objects: u16, rows: u16) -> Result<Case, AllocError> {
    let mut case = Case::of(heap, objects.saturating_add(rows).saturating_add(1), &[])?;
    let held = (0..objects).map(|object| Constraint::Address {
        left: objects,
        object,
    });
    let copies = (0..rows).map(|i| Constraint::Copy {
        left: objects.saturating_add(i).saturating_add(1),
        right: objects,
    });
    case.words = held
        .chain(copies)
        .filter_map(Constraint::encode)
        .collect(heap)?;
    Ok(case)
}

// 256 variables in a chain of copies, listed from its far end to its start, and then the objects at the start.
pub fn long_chain(heap: Global, objects: u16) -> Result<Case, AllocError> {
    let mut case = Case::of(heap, 256, &[])?;
    let copies = (0..255u16).rev().map(|right| Constraint::Copy {
        left: right.saturating_add(1),
        right,
    });
    let held = (0..objects).map(|object| Constraint::Address { left: 0, object });
    case.words = copies
        .chain(held)
        .filter_map(Constraint::encode)
        .collect(heap)?;
    Ok(case)
}

// A ring of copies through all 256 variables, and every object at its start: 65,536 pairs.
pub fn full(heap: Global) -> Result<Case, AllocError> {
    let mut case = long_chain(heap, 256)?;
    let closing = Constraint::Copy {
        left: 0,
        right: 255,
    };
    case.words.extend(closing.encode())?;
    Ok(case)
}

// Row 0 points to 8 variables; each other variable is loaded from and stored through it, and 10 of them hold an object.
pub fn star(heap: Global) -> Result<Case, AllocError> {
    let mut case = Case::of(heap, 256, &[])?;
    let pointed = (1..9).map(|object| Constraint::Address { left: 0, object });
    let through = (9..256u16).flat_map(|v| {
        [
            Constraint::Store {
                left: 0,
                offset: 0,
                right: v,
            },
            Constraint::Load {
                left: v,
                right: 0,
                offset: 0,
            },
        ]
    });
    let held = (9..19).map(|v| Constraint::Address { left: v, object: v });
    case.words = pointed
        .chain(through)
        .chain(held)
        .filter_map(Constraint::encode)
        .collect(heap)?;
    Ok(case)
}

// The next number of a linear congruential sequence.
fn after(seed: u32) -> u32 {
    seed.wrapping_mul(1664525).wrapping_add(1013904223)
}

// A constraint of 64 blocks of 4 variables.
fn drawn(seed: u32) -> Constraint {
    let left = ((seed >> 8) % 256) as u16;
    let right = ((seed >> 16) % 256) as u16;
    let offset = ((seed >> 24) % 4) as u16;
    match seed >> 30 {
        0 => Constraint::Address {
            left,
            object: (right / 4).saturating_mul(4),
        },
        1 => Constraint::Copy { left, right },
        2 => Constraint::Load {
            left,
            right,
            offset,
        },
        _ => Constraint::Store {
            left,
            offset,
            right,
        },
    }
}

// 64 blocks of 4 variables and 512 words of all kinds.
pub fn mixed(heap: Global) -> Result<Case, AllocError> {
    Ok(Case {
        blocks: vec![in heap; 4u8; 64]?,
        words: iter::successors(Some(after(1)), |seed| Some(after(*seed)))
            .take(512)
            .filter_map(|seed| drawn(seed).encode())
            .collect(heap)?,
    })
}
