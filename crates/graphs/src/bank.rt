// The rows of a matrix of words as a bank of keys.
ghost use Rattle.std.specs.Prelude.{◌≡◌, ℕ, ◌/◌, ◌<◌, ◌≤◌, length};
ghost use Rattle.numbering.specs.Lists.{same_list, hash_of};
ghost use Rattle.numbering.proofs.Lists.{lists_equivalence, lists_alike};
ghost use Rattle.graphs.specs.Matrix.{row_at};
ghost use Rattle.graphs.specs.Keys.{SameRows};

use numbering::{KeyBank, hash_items, number};

// The rows of a matrix of words: same rows have same words.
#[derive(Drop)]
struct Rows<'a> {
    words: &'a [u32],
    width: usize,
    ghost wide: { 0 < width },
}

impl<'a> Rows<'a> {
    fn row(&self, i: usize) -> &[u32]
        requires { i < length self.now.words.now / self.now.width }
        ensures { result.now ≡ row_at self.now.width self.now.words.now i }
    {
        let at = self.width * i;
        &self.words[at..at + self.width]
    }
}

impl<'a> KeyBank for Rows<'a> {
    ghost count = { λ b. length b.words.now / b.width };

    ghost same = { λ b. same_list (row_at b.width b.words.now) };

    ghost hashed = { λ b i. hash_of (row_at b.width b.words.now i) };

    ghost equivalence = { λ b. lists_equivalence (row_at b.width b.words.now) (length b.words.now / b.width) };

    ghost alike = { λ b. lists_alike (row_at b.width b.words.now) (length b.words.now / b.width) hash_of };

    fn len(&self) -> usize {
        self.words.len() / self.width
    }

    fn hash(&self, i: usize) -> u32 {
        hash_items(self.row(i))
    }

    fn is_same(&self, i: usize, j: usize) -> bool {
        self.row(i) == self.row(j)
    }
}

// Gives each row the first row with the same words.
pub fn number_rows(words: &[u32], width: usize, first: &mut [u16])
    requires wide { 0 < width }
    requires few { length words.now / width ≤ 512 }
    requires long { length words.now / width ≤ length first.old }
    ensures { SameRows width words.now first.new }
{
    let mut links = [None; 512];
    number(&Rows { words, width }, first, &mut links);
}
