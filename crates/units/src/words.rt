// The words of one statement.
ghost use Rattle.std.specs.Prelude.{◌≡◌, ℕ, ◌+◌, ◌<◌, ◌≤◌, List, map, length};
ghost use Rattle.std.specs.List.{slice_get};
ghost use Rattle.lexemes.specs.Texts.{name_in_text};
ghost use Rattle.grammar.specs.Grammar.{Place as AnyPlace};
ghost use Rattle.grammar.specs.Meanings.{place_in, callee_in, call_in, value_in, item_in, target_in};
ghost use Rattle.units.specs.Words.{variable, word, Fits, packed};
ghost use Rattle.units.specs.Statements.{slot_number, cell, slot_of, argument_word, result_word, call_words, value_words, words_of};

use crate::names::FirstVariables;
use arrayvec::ArrayVec;
use constraints::Constraint;
use grammar::item::{Call, Callee, Item, Place, Slot, Value};
use lexemes::lexeme::{Span, bytes_of};

// The slot's place in its block.
pub fn slot_number(slot: Slot) -> u16
    ensures is { result ≡ slot_number slot }
    ensures small { result ≤ 256 }
{
    match slot {
        Slot::Bare => 0,
        Slot::Result(_) => 1,
        Slot::Parameter(j) => 1 + u16::from(j),
    }
}

// The constraint's word.
fn encoded(constraint: Constraint) -> u32
    requires { Fits constraint }
    ensures { result ≡ packed constraint }
{
    constraint.encode().unwrap_or(0)
}

// What the words of statements are read from: their text, and the first variable of each name.
#[derive_where(Clone, Copy)]
pub struct Reader<'a, 'b, N> {
    pub text: &'a [u8],
    pub names: &'b N,
}

impl<'a, 'b, N: FirstVariables> Reader<'a, 'b, N> {
    // The variable at a slot of a name's block.
    fn variable_at(&self, name: Span, slot: u16) -> u16
        requires { slot ≤ 256 }
        ensures is { result ≡ variable (N.first self.now.names.now) (slot_of (name_in_text self.now.text.now name) slot) }
        ensures small { result < 4096 }
    {
        u16::from(self.names.first_of(bytes_of(self.text, name))) + slot
    }

    fn variable_of(&self, place: Place) -> u16
        ensures is { result ≡ variable (N.first self.now.names.now) (cell (place_in self.now.text.now place)) }
        ensures small { result < 4096 }
    {
        self.variable_at(place.base, slot_number(place.slot))
    }

    // The word that hands the argument j, from 0, to the callee.
    fn argument_word(&self, callee: Callee, argument: Place, j: usize) -> u32
        requires { j < 6 }
        ensures { result ≡ word (N.first self.now.names.now) (argument_word (callee_in self.now.text.now callee) (2 + j) (place_in self.now.text.now argument)) }
    {
        let slot = 2 + j as u16;
        let right = self.variable_of(argument);
        match callee {
            Callee::Direct(name) => encoded(Constraint::Copy {
                left: self.variable_at(name, slot),
                right,
            }),
            Callee::Through(pointer) => encoded(Constraint::Store {
                left: self.variable_of(pointer),
                offset: slot,
                right,
            }),
        }
    }

    // The word that gives the callee's result to the target.
    fn result_word(&self, target: Place, callee: Callee) -> u32
        ensures { result ≡ word (N.first self.now.names.now) (result_word (cell (place_in self.now.text.now target)) (callee_in self.now.text.now callee)) }
    {
        let left = self.variable_of(target);
        match callee {
            Callee::Direct(name) => encoded(Constraint::Copy {
                left,
                right: self.variable_at(name, 1),
            }),
            Callee::Through(pointer) => encoded(Constraint::Load {
                left,
                right: self.variable_of(pointer),
                offset: 1,
            }),
        }
    }

    // The words of a call whose result goes to the target, if there is one.
    fn call_words(&self, target: Option<Place>, call: Call) -> ArrayVec<u32, 7>
        ensures { result.items ≡ map (word (N.first self.now.names.now)) (call_words (target_in self.now.text.now target) (call_in self.now.text.now call)) }
    {
        let mut words = ArrayVec::new();
        for (j, argument) in call.arguments.as_slice().iter().enumerate() {
            words.push(self.argument_word(call.callee, *argument, j));
        }
        if let Some(place) = target {
            words.push(self.result_word(place, call.callee));
        }
        words
    }

    // Word i, from 0, of such a call.
    fn call_word(&self, target: Option<Place>, call: Call, i: usize) -> Option<u32>
        ensures { result ≡ slice_get (map (word (N.first self.now.names.now)) (call_words (target_in self.now.text.now target) (call_in self.now.text.now call))) i }
    {
        let arguments = call.arguments.as_slice();
        let count = arguments.len();
        if i < count {
            return Some(self.argument_word(call.callee, arguments[i], i));
        }
        if i > count {
            return None;
        }
        match target {
            Some(place) => Some(self.result_word(place, call.callee)),
            None => None,
        }
    }

    // The words of a statement, by the first variable of each name.
    pub fn words_of(&self, item: Item) -> ArrayVec<u32, 7>
        ensures { result.items ≡ map (word (N.first self.now.names.now)) (words_of (item_in self.now.text.now item)) }
    {
        let constraint = match item {
            Item::Variable(..) | Item::Function(..) => return ArrayVec::new(),
            Item::Assign(target, Value::Returned(call)) => return self.call_words(
                Some(target),
                call,
            ),
            Item::Invoke(call) => return self.call_words(None, call),
            Item::Assign(target, Value::Address(name)) => Constraint::Address {
                left: self.variable_of(target),
                object: self.variable_at(name, 0),
            },
            Item::Assign(target, Value::Copy(place)) => Constraint::Copy {
                left: self.variable_of(target),
                right: self.variable_of(place),
            },
            Item::Assign(target, Value::Load(place)) => Constraint::Load {
                left: self.variable_of(target),
                right: self.variable_of(place),
                offset: 0,
            },
            Item::Store(pointer, place) => Constraint::Store {
                left: self.variable_of(pointer),
                offset: 0,
                right: self.variable_of(place),
            },
        };
        let mut words = ArrayVec::new();
        words.push(encoded(constraint));
        words
    }
}

// Word i, from 0, of a statement, by the first variable of each name.
pub fn word_at<N: FirstVariables>(text: &[u8], names: &N, item: Item, i: usize) -> Option<u32>
    ensures { result ≡ slice_get (map (word (N.first names.now)) (words_of (item_in text.now item))) i }
{
    let reader = Reader { text, names };
    match item {
        Item::Assign(target, Value::Returned(call)) => reader.call_word(Some(target), call, i),
        Item::Invoke(call) => reader.call_word(None, call, i),
        _ if i < word_count(item) => reader.words_of(item).as_slice().get(i).copied(),
        _ => None,
    }
}

fn value_count(value: Value) -> usize
    ensures all { (text : List ℕ) (p : AnyPlace) → result ≡ length (value_words p (value_in text value)) }
    ensures few { result ≤ 7 }
{
    match value {
        Value::Address(_) | Value::Copy(_) | Value::Load(_) => 1,
        Value::Returned(call) => call.arguments.len() + 1,
    }
}

// How many words a statement has.
pub fn word_count(item: Item) -> usize
    ensures all { (text : List ℕ) → result ≡ length (words_of (item_in text item)) }
    ensures few { result ≤ 7 }
{
    match item {
        Item::Variable(..) | Item::Function(..) => 0,
        Item::Assign(_, value) => value_count(value),
        Item::Store(..) => 1,
        Item::Invoke(call) => call.arguments.len(),
    }
}
