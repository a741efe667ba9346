// The names of a unit text, in order, each with what it is used for.
ghost use Rattle.std.specs.Prelude.{◌≡◌, ℕ, ◌+◌, ◌≤◌, true, List, ◌++◌, map, length};
ghost use Rattle.lexemes.specs.Texts.{name_in_text};
ghost use Rattle.grammar.specs.Meanings.{callee_in, arguments_in, call_in, value_in, item_in};
ghost use Rattle.declarations.specs.Declarations.{Entry, size_of, name_in, offset_of, has_slot, right, entry, callee_mention, call_mentions, value_mentions, mentions as mentions_of};
ghost use Rattle.declarations.specs.Listed.{listed};
ghost use Rattle.declarations.specs.Meanings.{mention_in, noted};

use crate::mentions::Mentions;
use grammar::item::{Call, Callee, Item, Linkage, Place, Slot, Value};
use lexemes::lexeme::Span;

// A name that is declared, with how many slots follow its own cell; used as a place; or called, with how many arguments.
#[derive(Clone, Copy)]
pub enum Mention {
    Declares(Linkage, Span, u16),
    Uses(Place),
    Calls(Span, u16),
}

impl Mention {
    pub(crate) fn name(self) -> Span
        ensures { (text : List ℕ) → name_in_text text result ≡ name_in (mention_in text self) }
    {
        match self {
            Mention::Declares(_, name, _) | Mention::Calls(name, _) => name,
            Mention::Uses(place) => place.base,
        }
    }

    pub(crate) fn offset(self) -> usize
        ensures { (text : List ℕ) → result ≡ offset_of (mention_in text self) }
    {
        self.name().from
    }

    // Whether the mention is right where its name's block has this length, 0 where the name is not declared yet.
    pub(crate) fn is_right(self, size: u32) -> bool
        ensures { (text : List ℕ) (es : List Entry) → size ≡ size_of es (name_in (mention_in text self)).bytes → result ≡ right es (mention_in text self) }
    {
        match self {
            Mention::Declares(..) => size == 0,
            Mention::Uses(place) => has_slot(place.slot, size),
            Mention::Calls(_, count) => size == u32::from(count) + 2,
        }
    }

    // The length of the name's block after a mention that is right, from that before.
    pub(crate) fn size_after(self, size: u32) -> u32
        ensures { (text : List ℕ) (es : List Entry) → size ≡ size_of es (name_in (mention_in text self)).bytes → right es (mention_in text self) ≡ true → result ≡ size_of (es ++ entry (mention_in text self)) (name_in (mention_in text self)).bytes }
    {
        match self {
            Mention::Declares(_, _, slots) => u32::from(slots) + 1,
            Mention::Uses(_) | Mention::Calls(..) => size,
        }
    }
}

// Whether a block of this length has the slot.
pub fn has_slot(slot: Slot, size: u32) -> bool
    ensures { result ≡ has_slot slot size }
{
    match slot {
        Slot::Bare => size > 0,
        Slot::Result(_) => size > 1,
        Slot::Parameter(j) => j > 0 && size > 1 + u32::from(j),
    }
}

fn callee_mention(call: Call) -> Mention
    ensures { (text : List ℕ) → mention_in text result ≡ callee_mention (callee_in text call.callee) (length (arguments_in text call.arguments)) }
{
    match call.callee {
        Callee::Direct(name) => Mention::Calls(name, call.arguments.len() as u16),
        Callee::Through(place) => Mention::Uses(place),
    }
}

fn note_call(mentions: &mut Mentions, call: Call)
    requires { length (listed mentions.old) + 7 ≤ 4104 }
    ensures few { length (listed mentions.new) ≤ length (listed mentions.old) + 7 }
    ensures all { (text : List ℕ) → noted text (listed mentions.new) ≡ noted text (listed mentions.old) ++ call_mentions (call_in text call) }
{
    mentions.push(callee_mention(call));
    for argument in call.arguments.as_slice() {
        mentions.push(Mention::Uses(*argument));
    }
}

fn note_value(mentions: &mut Mentions, value: Value)
    requires { length (listed mentions.old) + 7 ≤ 4104 }
    ensures few { length (listed mentions.new) ≤ length (listed mentions.old) + 7 }
    ensures all { (text : List ℕ) → noted text (listed mentions.new) ≡ noted text (listed mentions.old) ++ value_mentions (value_in text value) }
{
    match value {
        Value::Address(base) => {
            let slot = Slot::Bare;
            mentions.push(Mention::Uses(Place { base, slot }));
        }
        Value::Copy(place) | Value::Load(place) => mentions.push(Mention::Uses(place)),
        Value::Returned(call) => note_call(mentions, call),
    }
}

// Puts the mentions of an item behind those that are there.
pub(crate) fn note_item(mentions: &mut Mentions, item: Item)
    requires { length (listed mentions.old) + 8 ≤ 4104 }
    ensures few { length (listed mentions.new) ≤ length (listed mentions.old) + 8 }
    ensures all { (text : List ℕ) → noted text (listed mentions.new) ≡ noted text (listed mentions.old) ++ mentions_of (item_in text item) }
{
    match item {
        Item::Variable(linkage, name) => mentions.push(Mention::Declares(linkage, name, 0)),
        Item::Function(linkage, name, count) => {
            mentions.push(Mention::Declares(linkage, name, u16::from(count) + 1));
        }
        Item::Assign(place, value) => {
            mentions.push(Mention::Uses(place));
            note_value(mentions, value);
        }
        Item::Store(pointer, place) => {
            mentions.push(Mention::Uses(pointer));
            mentions.push(Mention::Uses(place));
        }
        Item::Invoke(call) => note_call(mentions, call),
    }
}
