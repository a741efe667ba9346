// The list that every engine keeps: blocks and words, always valid.
mod calls;

ghost use Rattle.std.specs.Prelude.{◌≡◌, ℕ, ◌<◌, ◌≤◌, true, length, slice_index};
ghost use Rattle.constraints.specs.Constraint.{variables, length_of};
ghost use Rattle.constraints.specs.Words.{is_word};

use arrayvec::ArrayVec;
pub use calls::ListFault;

// At most 256 variables and 512 words; all memory is its own.
#[derive(Debug, Drop)]
pub struct ConstraintList {
    // the lengths of the blocks, in order
    lengths: ArrayVec<u8, 256>,
    // at a block's first variable the block's length, elsewhere 0
    starting: [u8; 256],
    // how many variables there are
    width: usize,
    words: ArrayVec<u32, 512>,
    ghost narrow: { length lengths.items ≤ width },
    ghost few: { width ≤ 256 },
    ghost within: { length words.items ≤ 512 },
    ghost counted: { width ≡ variables lengths.items },
    ghost told: { (o : ℕ) → slice_index starting o ≡ length_of lengths.items o },
    ghost sized: { (i : ℕ) → i < length lengths.items → (0 < slice_index lengths.items i) × (slice_index lengths.items i ≤ 8) },
    ghost formed: { (i : ℕ) → i < length words.items → is_word lengths.items (slice_index words.items i) ≡ true },
}
