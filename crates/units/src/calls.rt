// The indirect calls of a text, and the pointer of each.
ghost use Rattle.std.specs.Prelude.{◌≡◌, ℕ, List, length, nat_lt};
ghost use Rattle.std.specs.List.{slice_get};
ghost use Rattle.grammar.specs.Meanings.{item_in, target_in};
ghost use Rattle.units.specs.Statements.{pointers_of};
ghost use Rattle.units.specs.Listing.{pointers_in, as_list};

use grammar::item::{Callee, Item, Place, Value};
use grammar::unit::{Items, check_text};

// The pointer of a statement's indirect call.
fn pointer_of(item: Item) -> Option<Place>
    ensures { (text : List ℕ) → as_list (target_in text result) ≡ pointers_of (item_in text item) }
{
    match item {
        Item::Invoke(call) | Item::Assign(_, Value::Returned(call)) => match call.callee {
            Callee::Direct(_) => None,
            Callee::Through(place) => Some(place),
        },
        _ => None,
    }
}

fn is_indirect(item: Item) -> bool
    ensures { (text : List ℕ) → result ≡ nat_lt 0 (length (pointers_of (item_in text item))) }
{
    pointer_of(item).is_some()
}

// How many indirect calls a text has.
pub fn count_calls(text: &[u8]) -> usize
    ensures { result ≡ length (pointers_in text.now) }
{
    if check_text(text).is_err() {
        return 0;
    }
    Items::new(text, 0)
        .filter(|found| is_indirect(found.item))
        .count()
}

// The pointer of indirect call i, from 0.
pub fn call_pointer(text: &[u8], i: usize) -> Option<Place>
    ensures { target_in text.now result ≡ slice_get (pointers_in text.now) i }
{
    if check_text(text).is_err() {
        return None;
    }
    let found = Items::new(text, 0)
        .filter(|found| is_indirect(found.item))
        .nth(i)?;
    pointer_of(found.item)
}
