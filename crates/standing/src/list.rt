// The list of the standing units: blocks, words, and where each comes from.
use arrayvec::ArrayVec;
use lexemes::lexeme::Span;
use units::listing::ListedWord;

// Where a block's name is first declared: its span in a unit's text.
#[derive(Clone, Copy)]
pub struct Owner {
    pub unit: usize,
    pub span: Span,
}

#[derive(Drop)]
pub struct UnitList {
    blocks: ArrayVec<u8, 256>,
    // Stays: the owner of each block is beside the blocks, since hosts are lent the blocks as a slice; and an array, since
    // a vector would need an owner by default, who owns nothing.
    owners: [Owner; 256],
    // how many variables the blocks have
    variables: u16,
    words: ArrayVec<u32, 512>,
    // Stays: where each word comes from is beside the words, since hosts are lent the words as a slice.
    listed: [ListedWord; 512],
}

mod parts;
