// What is done with a list.
ghost use Rattle.std.specs.Prelude.{◌≡◌, ℕ, ◌≤◌, length, nat_lt};
ghost use Rattle.constraints.specs.Constraint.{length_of, variables, Valid};
ghost use Rattle.constraints.specs.Words.{names, is_word};
ghost use Rattle.constraints.specs.Lists.{system_of, no_words, refusal_number, block_reply, after_block, word_reply, after_word};

use crate::constraint::Constraint;
use crate::list::ConstraintList;
use arrayvec::ArrayVec;

// Why a list does not take a block or a word.
#[derive(Clone, Copy, PartialEq, Eq, Debug)]
pub enum ListFault {
    // a block's length is not 1 to 8
    Length,
    // more than 256 variables
    Variables,
    // a variable in no block, bits 26 to 24 not zero, an offset on an address or a copy, or an address of no object
    Malformed,
    // 512 words stand
    Words,
}

impl ListFault {
    // The number under which the refusal is known.
    // Stays: by a match, since the numbers are those that hosts know.
    pub fn number(self) -> u8
        ensures { result ≡ refusal_number self }
    {
        match self {
            ListFault::Length => 2,
            ListFault::Variables => 3,
            ListFault::Malformed => 4,
            ListFault::Words => 5,
        }
    }
}

impl ConstraintList {
    // No block and no word.
    pub fn new() -> ConstraintList
        ensures { system_of result ≡ no_words }
    {
        ConstraintList {
            lengths: ArrayVec::new(),
            starting: [0; 256],
            width: 0,
            words: ArrayVec::new(),
        }
    }

    pub fn clear(&mut self)
        ensures { system_of self.new ≡ no_words }
    {
        *self = ConstraintList::new();
    }

    // The lengths of the blocks, in order.
    pub fn blocks(&self) -> &[u8]
        ensures { result.now ≡ (system_of self.now).blocks }
    {
        self.lengths.as_slice()
    }

    pub fn words(&self) -> &[u32]
        ensures value { result.now ≡ (system_of self.now).words }
        ensures valid { Valid (system_of self.now) }
    {
        self.words.as_slice()
    }

    // How many variables there are.
    pub fn variables(&self) -> usize
        ensures value { result ≡ variables (system_of self.now).blocks }
        ensures few { result ≤ 256 }
    {
        self.width
    }

    // The length of the block whose first variable is o, 0 where none begins there.
    // Stays: 0 for no block, since an offset is allowed where it is below this length, and below 0 none is.
    pub fn length_of(&self, o: usize) -> u8
        ensures { result ≡ length_of (system_of self.now).blocks o }
    {
        self.starting.get(o).copied().unwrap_or(0)
    }

    // Whether the word may stand in the list: it is the word of its constraint, which names what there is.
    pub fn allows(&self, word: u32) -> bool
        ensures { result ≡ is_word (system_of self.now).blocks word }
    {
        let constraint = Constraint::decode(word);
        constraint.encode() == Some(word) && self.names(constraint)
    }

    // Whether the constraint's variables lie in blocks, and the object of an address begins one.
    fn names(&self, constraint: Constraint) -> bool
        ensures { result ≡ names (system_of self.now).blocks constraint }
    {
        match constraint {
            Constraint::Address { left, object } => {
                self.has(left) && self.length_of(usize::from(object)) > 0
            }
            Constraint::Copy { left, right }
            | Constraint::Load { left, right, .. }
            | Constraint::Store { left, right, .. } => self.has(left) && self.has(right),
        }
    }

    fn has(&self, variable: u16) -> bool
        ensures { result ≡ nat_lt variable (variables (system_of self.now).blocks) }
    {
        usize::from(variable) < self.width
    }

    // Appends a block and answers its first variable.
    pub fn block(&mut self, n: u8) -> Result<u16, ListFault>
        ensures replies { result ≡ block_reply (system_of self.old) n }
        ensures after { system_of self.new ≡ after_block (system_of self.old) n }
    {
        if !matches!(n, 1..=8) {
            return Err(ListFault::Length);
        }
        let first = self.width;
        let width = first + usize::from(n);
        if width > 256 {
            return Err(ListFault::Variables);
        }
        self.lengths.push(n);
        self.starting[first] = n;
        self.width = width;
        Ok(first as u16)
    }

    // Appends a word.
    pub fn add(&mut self, word: u32) -> Result<(), ListFault>
        ensures replies { result ≡ word_reply (system_of self.old) word }
        ensures after { system_of self.new ≡ after_word (system_of self.old) word }
    {
        if !self.allows(word) {
            return Err(ListFault::Malformed);
        }
        self.words.try_push(word).map_err(|_| ListFault::Words)
    }
}
