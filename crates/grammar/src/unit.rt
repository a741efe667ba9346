// Reading a lone text, and its items one after another.
ghost use Rattle.std.specs.Prelude.{◌≡◌};
ghost use Rattle.grammar.specs.Units.{refusal, outcome, read, NextOf, ItemAt};

use crate::reader::{check_grammar, next_item};
use crate::state::Found;
use lexemes::location::Location;

pub(crate) const LONGEST_TEXT: usize = 4096;

// Why a lone text is refused.
#[derive(Clone, Copy, Drop)]
pub enum UnitFault {
    TooLong,
    Grammar(Location),
    Declaration(Location),
}

impl UnitFault {
    // The refusal's number.
    pub fn number(self) -> u8
        ensures { result ≡ (refusal self).number }
    {
        // Stays: the numbers are the hosts'.
        match self {
            UnitFault::TooLong => 11,
            UnitFault::Grammar(_) => 12,
            UnitFault::Declaration(_) => 13,
        }
    }

    // Where in the text it lies.
    pub fn location(self) -> Option<Location>
        ensures { result ≡ (refusal self).location }
    {
        match self {
            UnitFault::TooLong => None,
            UnitFault::Grammar(location) | UnitFault::Declaration(location) => Some(location),
        }
    }
}

// Whether the text is short enough and admitted by the grammar.
pub fn check_text(text: &[u8]) -> Result<(), UnitFault>
    ensures { result ≡ outcome (read text.now) }
{
    if text.len() > LONGEST_TEXT {
        return Err(UnitFault::TooLong);
    }
    check_grammar(text).map_err(UnitFault::Grammar)
}

// The first item from an offset on; none at the end, and none at a fault.
pub fn item_from(text: &[u8], at: usize) -> Option<Found>
    ensures next { NextOf text.now at result }
    ensures item { ItemAt text.now at result }
{
    next_item(text, at).unwrap_or(None)
}

// The items of a text from an offset on, up to its end or to a fault.
#[derive(Clone, Copy, Drop)]
pub struct Items<'a> {
    text: &'a [u8],
    at: usize,
}

impl<'a> Items<'a> {
    ghost use Rattle.grammar.specs.Items.{text_of, offset_of};

    pub fn new(text: &'a [u8], at: usize) -> Self
        ensures text { text_of result ≡ text.now }
        ensures at { offset_of result ≡ at }
    {
        Items { text, at }
    }
}

impl<'a> Iterator for Items<'a> {
    ghost use Rattle.std.specs.Iterator.{at_most};
    ghost use Rattle.grammar.specs.Items.{GivesItem, bytes_left};

    type Item = Found;

    ghost next_gives = { GivesItem };

    ghost remaining = { λ s. at_most (bytes_left s) };

    fn next(&mut self) -> Option<Found> {
        let found = item_from(self.text, self.at)?;
        self.at = found.end;
        Some(found)
    }
}
