// Handing blocks and words to an engine.
ghost use Rattle.std.specs.Prelude.{◌≡◌, ℕ, ◌<◌, ◌≤◌, [], length, Ok, slice_index};
ghost use Rattle.constraints.specs.Constraint.{Valid, variables};
ghost use Rattle.constraints.specs.Lists.{no_words};
ghost use Rattle.engine.specs.Meanings.{gathering};

use crate::{Engine, EngineFault};

// Appends the blocks to an empty engine.
fn hand_blocks<E: Engine>(below: &mut E, blocks: &[u8]) -> Result<(), EngineFault>
    requires fresh { E.meaning below.old ≡ gathering (E.meaning below.old) no_words }
    requires sized { (i : ℕ) → i < length blocks.now → (0 < slice_index blocks.now i) × (slice_index blocks.now i ≤ 8) }
    requires few { variables blocks.now ≤ 256 }
    ensures done { result ≡ Ok tt }
    ensures after { E.meaning below.new ≡ gathering (E.meaning below.old) (record { blocks = blocks.now; words = [] }) }
{
    for n in blocks {
        below.block(*n)?;
    }
    Ok(())
}

// Appends the words to an engine that has its blocks.
fn hand_words<E: Engine>(below: &mut E, blocks: &[u8], words: &[u32]) -> Result<(), EngineFault>
    requires fresh { E.meaning below.old ≡ gathering (E.meaning below.old) (record { blocks = blocks.now; words = [] }) }
    requires valid { Valid (record { blocks = blocks.now; words = words.now }) }
    ensures done { result ≡ Ok tt }
    ensures after { E.meaning below.new ≡ gathering (E.meaning below.old) (record { blocks = blocks.now; words = words.now }) }
{
    for word in words {
        below.add(*word)?;
    }
    Ok(())
}

// Clears the engine and hands it the list.
pub fn hand_down<E: Engine>(below: &mut E, blocks: &[u8], words: &[u32]) -> Result<(), EngineFault>
    requires { Valid (record { blocks = blocks.now; words = words.now }) }
    ensures done { result ≡ Ok tt }
    ensures after { E.meaning below.new ≡ gathering (E.meaning below.old) (record { blocks = blocks.now; words = words.now }) }
{
    below.clear();
    hand_blocks(below, blocks)?;
    hand_words(below, blocks, words)
}
