// A row store of 2,048 words of 32 bits: pair (v, o) is bit o mod 32 of word 8 v + o / 32.
#![tactic(auto)]

ghost use Rattle.std.specs.Prelude.{◌≡◌, ℕ, ◌<◌, ◌≤◌, Bool, true, false, length};
ghost use Rattle.constraints.specs.Finite.{count};
ghost use Rattle.constraints.specs.Rows.{empty};
ghost use Rattle.rows.specs.Stores.{Found};
ghost use Rattle.bit_rows.specs.Bits.{put_bit, cleared, bit_pairs, bit_room, bit_spare};

use rows::{Added, RowStore, StoreFault, checked};

const WORDS: usize = 2048;

#[derive(Debug, Drop)]
pub struct BitRows {
    words: Vec<u32>,
}

// Whether bit o of row v is set.
// Stays: these functions are kept beside the matrices of graphs, whose words are an array of their own; a store's are given to it, and may be too few.
fn bit_is_set(words: &[u32], v: u8, o: u8) -> bool
    ensures { result ≡ bit_pairs words.now v o }
{
    if words.len() < WORDS {
        return false;
    }
    let word = words[8 * usize::from(v) + usize::from(o / 32)];
    (word >> (o % 32)) % 2 == 1
}

fn set_bit(words: &mut [u32], v: u8, o: u8)
    requires { 2048 ≤ length words.old }
    ensures { words.new ≡ put_bit words.old v o }
{
    words[8 * usize::from(v) + usize::from(o / 32)] |= 1 << (o % 32);
}

// Sets the first 2,048 words to 0.
fn clear(words: &mut [u32])
    requires { 2048 ≤ length words.old }
    ensures { words.new ≡ cleared 2048 words.old }
{
    words[..WORDS].fill(0);
}

fn next_set(words: &[u32], v: u8, start: u16) -> Option<u16>
    ensures { Found (bit_pairs words.now v) start result }
{
    let start = u8::try_from(start).ok()?;
    (start..=255)
        .find(|o| bit_is_set(words, v, *o))
        .map(u16::from)
}

fn count_set(words: &[u32], v: u8) -> u16
    ensures { result ≡ count 256 (bit_pairs words.now v) }
{
    (0..=255).filter(|o| bit_is_set(words, v, *o)).count() as u16
}

impl RowStore for BitRows {
    ghost pairs = { λ s. bit_pairs s.words.items };

    ghost room = { λ s. bit_room s.words.items };

    ghost spare = { λ s. bit_spare s.words.items };

    #[tactic(auto, using(crate::proofs::Words::bit_within))]
    fn room(&self) -> u32 {
        if self.words.len() < WORDS { 0 } else { 65536 }
    }

    #[tactic(auto, using(crate::proofs::Words::bit_within))]
    fn put(&mut self, v: u16, o: u16) -> Result<Added, StoreFault> {
        let row = checked(v)?;
        let object = checked(o)?;
        if self.words.len() < WORDS {
            return Err(StoreFault::Full {
                variable: v,
                object: o,
            });
        }
        if bit_is_set(&self.words, row, object) {
            return Ok(Added::Old);
        }
        set_bit(&mut self.words, row, object);
        Ok(Added::New)
    }

    fn has(&self, v: u16, o: u16) -> Result<bool, StoreFault> {
        Ok(bit_is_set(&self.words, checked(v)?, checked(o)?))
    }

    fn next(&self, v: u16, start: u16) -> Result<Option<u16>, StoreFault> {
        Ok(next_set(&self.words, checked(v)?, start))
    }

    fn size(&self, v: u16) -> Result<u16, StoreFault> {
        Ok(count_set(&self.words, checked(v)?))
    }

    #[tactic(auto, using(crate::proofs::Words::bit_within))]
    fn wipe(&mut self) {
        if self.words.len() >= WORDS {
            clear(&mut self.words);
        }
    }
}

impl BitRows {
    // An empty store in the first 2,048 words; with fewer words it has no room.
    pub fn new(words: Vec<u32>) -> Self
        ensures empties { bit_pairs result.words.items ≡ empty }
        ensures room { bit_room result.words.items ≡ bit_room words.items }
        ensures rest { bit_spare result.words.items ≡ bit_spare words.items }
    {
        let mut store = BitRows { words };
        store.wipe();
        store
    }

    // The memory back.
    pub fn into_words(self) -> Vec<u32>
        ensures { bit_spare result.items ≡ bit_spare self.words.items }
    {
        let BitRows { words } = self;
        words
    }
}
