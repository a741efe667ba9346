// Reading a list, and adding to it.
ghost use Rattle.std.specs.Prelude.{◌≡◌, ◌<◌, ◌≤◌, [], map, length};
ghost use Rattle.std.specs.List.{slice_get};
ghost use Rattle.books.specs.Listing.{listing_from, word_of};
ghost use Rattle.standing.specs.Knowledge.{texts_in};
ghost use Rattle.standing.specs.Firsts.{firsts_of};
ghost use Rattle.standing.specs.Lists.{list_in, listed_in, owners_in, Pushed};
ghost use Rattle.constraints.specs.Lists.{no_words};

use super::{Owner, UnitList};
use crate::lister::list_units;
use arrayvec::ArrayVec;
use grammar::unit_text::UnitText;
use lexemes::lexeme::Span;
use names::NameTable;
use units::listing::ListedWord;

// Makes `words` the words that are listed.
fn copy_words(listed: &[ListedWord], words: &mut ArrayVec<u32, 512>)
    requires { length listed.now ≤ 512 }
    ensures { words.new.items ≡ map word_of listed.now }
{
    words.clear();
    for entry in listed {
        words.push(entry.word);
    }
}

impl UnitList {
    // A list without blocks and words.
    pub fn new() -> UnitList
        ensures { list_in result ≡ no_words }
    {
        let nowhere = Owner {
            unit: 0,
            span: Span { from: 0, to: 0 },
        };
        let none = ListedWord {
            word: 0,
            unit: 0,
            at: 0,
        };
        UnitList {
            blocks: ArrayVec::new(),
            owners: [nowhere; 256],
            variables: 0,
            words: ArrayVec::new(),
            listed: [none; 512],
        }
    }

    pub fn blocks(&self) -> &[u8]
        ensures { result.now ≡ (list_in self.now).blocks }
    {
        self.blocks.as_slice()
    }

    pub fn words(&self) -> &[u32]
        ensures { result.now ≡ (list_in self.now).words }
    {
        self.words.as_slice()
    }

    // The owner of each block.
    pub fn owners(&self) -> &[Owner]
        ensures { result.now ≡ owners_in self.now }
    {
        &self.owners[..self.blocks.len()]
    }

    // Where the word at a position comes from.
    pub fn origin(&self, i: usize) -> Option<ListedWord>
        ensures { result ≡ slice_get (listed_in self.now) i }
    {
        self.listed[..self.words.len()].get(i).copied()
    }

    // How many variables the blocks have.
    pub(crate) fn variables(&self) -> u16
        ensures { result ≡ self.now.variables }
    {
        self.variables
    }

    pub(crate) fn clear(&mut self)
        ensures blocks { (list_in self.new).blocks ≡ [] }
        ensures variables { self.new.variables ≡ 0 }
    {
        self.blocks.clear();
        self.variables = 0;
        self.words.clear();
    }

    // One block more, behind the others, as long as they have 256 variables at most.
    pub(crate) fn push_block(&mut self, len: u8, owner: Owner)
        ensures { length self.old.blocks.items < 256 → self.old.variables ≤ 256 → Pushed len owner self.old self.new }
    {
        if !self.blocks.is_full() {
            self.owners[self.blocks.len()] = owner;
            self.blocks.push(len);
            self.variables = self.variables.saturating_add(u16::from(len));
        }
    }

    // Fills in the words of the standing units.
    pub(crate) fn fill(&mut self, names: &NameTable, texts: &[Option<UnitText>])
        ensures blocks { (list_in self.new).blocks ≡ (list_in self.old).blocks }
        ensures owners { owners_in self.new ≡ owners_in self.old }
        ensures words { (list_in self.new).words ≡ map word_of (listed_in self.new) }
        ensures listed { length (listing_from (firsts_of names.now) 0 (texts_in texts.now)) ≤ 512 → listed_in self.new ≡ listing_from (firsts_of names.now) 0 (texts_in texts.now) }
    {
        let count = list_units(names, texts, &mut self.listed).min(512);
        copy_words(&self.listed[..count], &mut self.words);
    }
}
