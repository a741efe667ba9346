// An item that has been read in part.
use crate::item::{Arguments, Callee, Item, Linkage, Place};
use lexemes::lexeme::Span;

// What a place that is being read is for.
#[derive(Clone, Copy)]
pub enum Role {
    Target,
    Stored,
    Source(Place),
    Copied(Place),
    Loaded(Place),
    Pointer(Option<Place>),
    Argument(Option<Place>, Callee, Arguments),
}

#[derive(Clone, Copy)]
pub enum State {
    Start,
    External,
    Variable(Linkage),
    Function(Linkage),
    Counted(Linkage, Span),
    Ended(Item),
    Placed(Role),
    Named(Role, Span),
    Dotted(Role, Span),
    Slotted(Role, Place),
    Valued(Place),
    Addressed(Place),
    Opened(Option<Place>),
    Closed(Option<Place>, Place),
    Called(Option<Place>, Callee),
}

// Where a lexeme leads: on, or to the end of an item.
#[derive(Clone, Copy)]
pub enum Step {
    More(State),
    Done(Item),
}

// An item, the offset of its first lexeme, and that after it.
#[derive(Clone, Copy)]
pub struct Found {
    pub at: usize,
    pub item: Item,
    pub end: usize,
}
