// The table of names.
ghost use Rattle.std.specs.Prelude.{◌≡◌, ◌%◌};
ghost use Rattle.names.specs.Tables.{Sound};

use crate::asked::Asked;
use crate::record::{NOWHERE, NameRecord, Note, change_record, unplace_first};
use crate::short_name::LONGEST_NAME;
use numbering::{KeyBank, hash_items, lookup};

// The name is not entered: it is empty or over 24 bytes, or all blocks would have over 256 variables.
#[derive(Clone, Copy)]
pub struct TableFull;

// Where the last record with a hash is kept.
fn bucket_of(hash: u32) -> usize
    ensures { result ≡ hash % 256 }
{
    (hash % 256) as usize
}

// What is known of each name that standing units mention, and of those that none mentions any more, until a sweep.
#[derive(Clone, Copy)]
pub struct NameTable {
    // Stays: a table is copied where a call may still be refused, and the copy of a vector can fail.
    records: [NameRecord; 256],
    used: usize,
    // how many variables their blocks have
    variables: u16,
    // for each hash the last record that has it, and for each record the one before it with its hash
    heads: [Option<u16>; 256],
    links: [Option<u16>; 256],
    ghost sound: { ∥ Sound records used variables heads links ∥₁ },
}

impl NameTable {
    ghost use Rattle.std.specs.Prelude.{◌≡◌, ℕ, ◌+◌, ◌<◌, ◌≤◌, List, [], ◌∷◌, ◌++◌, map, Some, None, MatchOption, is_some, slice_index_or};
    ghost use Rattle.std.specs.Fn.{FnOnceReturnsAtMut};
    ghost use Rattle.names.specs.declared.record.NameRecord.{NameRecord as AnyRecord};
    ghost use Rattle.names.specs.Notes.{name_in, note_of, width, total, weight, lowered, standing, placed, then_note, with_note, sum_over, Lists, Updated};
    ghost use Rattle.names.specs.Index.{key_at};
    ghost use Rattle.names.specs.Tables.{enters, mention_reply, mention_adds, after_mention, variable_at, OfSameName, Changed};
    ghost use Rattle.names.specs.Held.{held, notes, variables_of};

    // A table that knows no name.
    pub fn new() -> NameTable
        ensures { held result ≡ [] }
    {
        NameTable {
            records: [NameRecord::free(); 256],
            used: 0,
            variables: 0,
            heads: [None; 256],
            links: [None; 256],
        }
    }

    // Where the name's record is.
    fn position(&self, name: &[u8]) -> Option<usize>
        ensures { MatchOption result (notes self.now name.now ≡ None) (λ p. (p < self.now.used) × (key_at (map name_in (held self.now)) p ≡ name.now)) }
    {
        let asked = Asked {
            records: &self.records[..self.used],
            name,
        };
        let bucket = bucket_of(asked.hash(self.used));
        lookup(&asked, &self.links, self.heads[bucket], self.used).map(usize::from)
    }

    // What is known of the name.
    pub fn find(&self, name: &[u8]) -> Option<Note>
        ensures { result ≡ notes self.now name.now }
    {
        let p = self.position(name)?;
        Some(self.records[p].note)
    }

    // How many variables the blocks of all known names have.
    pub fn variables(&self) -> u16
        ensures value { result ≡ variables_of self.now }
        ensures few { result ≤ 256 }
        ensures sum { (ns : List (List ℕ)) → Lists ns (notes self.now) → result ≡ sum_over (λ n. weight width (notes self.now n)) ns }
    {
        self.variables
    }

    // Whether an unknown name is entered.
    fn takes(&self, name: &[u8], slots: u8) -> bool
        ensures { result ≡ enters (variables_of self.now) name.now slots }
    {
        !name.is_empty()
            && name.len() <= LONGEST_NAME
            && self.variables + u16::from(slots) + 1 <= 256
    }

    // Puts a record behind those in use, at the head of its bucket.
    fn append(&mut self, last: NameRecord)
        requires unknown { notes self.old (name_in last) ≡ None }
        requires room { variables_of self.old + width last.note ≤ 256 }
        ensures appended { held self.new ≡ held self.old ++ last ∷ [] }
        ensures used { self.new.used ≡ self.old.used + 1 }
        ensures rest { (j : ℕ) (d : AnyRecord) → self.old.used < j → slice_index_or self.new.records j d ≡ slice_index_or self.old.records j d }
    {
        let at = self.used;
        let bucket = bucket_of(hash_items(last.name()));
        self.records[at] = last;
        self.links[at] = self.heads[bucket];
        self.heads[bucket] = Some(at as u16);
        self.used = at + 1;
        self.variables += u16::from(last.note.slots) + 1;
    }

    // Mentions an unknown name.
    fn enter(&mut self, name: &[u8], slots: u8, defines: bool) -> Result<(), TableFull>
        requires { notes self.old name.now ≡ None }
        ensures reply { result ≡ mention_reply None (variables_of self.old) name.now slots }
        ensures after { Updated (held self.old) (held self.new) name.now (after_mention None (variables_of self.old) name.now slots defines) }
    {
        if !self.takes(name, slots) {
            return Err(TableFull);
        }
        self.append(NameRecord::new(name, slots, defines));
        Ok(())
    }

    // Changes the name's record, if the name is known, and says whether it is.
    fn update<F: FnOnce(&mut NameRecord)>(&mut self, name: &[u8], change: F) -> bool
        requires callable { F.IsAlwaysCallable change }
        requires same { (before after : AnyRecord) → FnOnceReturnsAtMut F.FnOnce change before tt after → OfSameName before after }
        ensures known { result ≡ is_some (notes self.old name.now) }
        ensures after { Changed (FnOnceReturnsAtMut F.FnOnce change) (notes self.old name.now) (held self.old) (held self.new) name.now }
    {
        let Some(p) = self.position(name) else {
            return false;
        };
        change_record(&mut self.records, p, change);
        true
    }

    // One unit more mentions the name. A known name keeps its slots; an unknown one is entered, if it fits.
    pub fn mention(&mut self, name: &[u8], slots: u8, defines: bool) -> Result<(), TableFull>
        ensures reply { result ≡ mention_reply (notes self.old name.now) (variables_of self.old) name.now slots }
        ensures after { notes self.new ≡ with_note (notes self.old) name.now (after_mention (notes self.old name.now) (variables_of self.old) name.now slots defines) }
        ensures variables { variables_of self.new ≡ variables_of self.old + mention_adds (notes self.old name.now) (variables_of self.old) name.now slots }
    {
        if self.update(name, |record| record.raise(defines)) {
            Ok(())
        } else {
            self.enter(name, slots, defines)
        }
    }

    // One unit less mentions the name. An unknown name stays so.
    pub fn forget(&mut self, name: &[u8], defines: bool)
        ensures after { notes self.new ≡ with_note (notes self.old) name.now (then_note (λ k. Some (lowered k defines)) (notes self.old name.now)) }
        ensures variables { variables_of self.new ≡ variables_of self.old }
    {
        self.update(name, |record| record.lower(defines));
    }

    // Drops what is known of names that no unit mentions; the others keep their order, and are indexed again.
    pub fn sweep(&mut self)
        ensures after { (n : List ℕ) → notes self.new n ≡ then_note standing (notes self.old n) }
        ensures variables { variables_of self.new ≡ total (λ k. weight width (standing k)) (held self.old) }
    {
        let used = self.used;
        self.used = 0;
        self.variables = 0;
        self.heads = [None; 256];
        for i in 0..used {
            let known = self.records[i];
            if known.stands() {
                self.append(known);
            }
        }
    }

    // No block is laid out any more.
    pub fn unplace_all(&mut self)
        ensures after { (n : List ℕ) → notes self.new n ≡ then_note (λ k. Some (placed None k)) (notes self.old n) }
        ensures variables { variables_of self.new ≡ variables_of self.old }
    {
        unplace_first(&mut self.records, self.used);
    }

    // The known name's block begins at this variable; at `NOWHERE` it has none.
    pub fn place(&mut self, name: &[u8], first: u16)
        ensures after { notes self.new ≡ with_note (notes self.old) name.now (then_note (λ k. Some (placed (variable_at first) k)) (notes self.old name.now)) }
        ensures variables { variables_of self.new ≡ variables_of self.old }
    {
        let variable = (first != NOWHERE).then_some(first);
        self.update(name, |record| record.place(variable));
    }
}
