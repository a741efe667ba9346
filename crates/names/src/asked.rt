// The names of records, and behind them one more name that is asked for, as keys.
ghost use Rattle.std.specs.Prelude.{◌≡◌, ◌+◌, ◌<◌, length};
ghost use Rattle.numbering.specs.Lists.{hash_of};
ghost use Rattle.numbering.proofs.Lists.{lists_equivalence, lists_alike};
ghost use Rattle.names.specs.Index.{key_at, same_key, hash_key, with_asked};

use crate::record::NameRecord;
use numbering::{KeyBank, hash_items};

#[derive(Drop)]
pub struct Asked<'a> {
    pub records: &'a [NameRecord],
    pub name: &'a [u8],
}

impl<'a> Asked<'a> {
    fn key(&self, i: usize) -> &[u8]
        requires { i < length self.now.records.now + 1 }
        ensures { result.now ≡ key_at (with_asked self.now.records.now self.now.name.now) i }
    {
        match self.records.get(i) {
            Some(record) => record.name(),
            None => self.name,
        }
    }
}

impl<'a> KeyBank for Asked<'a> {
    ghost count = { λ b. length b.records.now + 1 };

    ghost same = { λ b. same_key (with_asked b.records.now b.name.now) };

    ghost hashed = { λ b. hash_key (with_asked b.records.now b.name.now) };

    ghost equivalence = { λ b. lists_equivalence (key_at (with_asked b.records.now b.name.now)) (length b.records.now + 1) };

    ghost alike = { λ b. lists_alike (key_at (with_asked b.records.now b.name.now)) (length b.records.now + 1) hash_of };

    fn len(&self) -> usize {
        self.records.len() + 1
    }

    fn hash(&self, i: usize) -> u32 {
        hash_items(self.key(i))
    }

    fn is_same(&self, i: usize, j: usize) -> bool {
        self.key(i) == self.key(j)
    }
}
