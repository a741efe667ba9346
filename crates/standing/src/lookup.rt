// The variables of cells, by the table of names.
ghost use Rattle.std.specs.Prelude.{◌≡◌, ◌+◌, ◌≤◌, List, if◌then◌else◌, Some, None, nat_lt};
ghost use Rattle.grammar.specs.Meanings.{place_in};
ghost use Rattle.declarations.specs.Declarations.{Entry, size_of};
ghost use Rattle.names.specs.Held.{notes};
ghost use Rattle.books.specs.Tables.{first_of};
ghost use Rattle.standing.specs.Knowledge.{size_in};
ghost use Rattle.books.specs.Targets.{pointer};
ghost use Rattle.standing.specs.Firsts.{Places, known_variable, cell_if_within};

use declarations::mention::has_slot;
use grammar::item::Place;
use lexemes::lexeme::bytes_of;
use names::NameTable;
use units::calls::call_pointer;
use units::words::slot_number;

// The length of the name's block, 0 where the name is not known.
fn block_size(names: &NameTable, name: &[u8]) -> u32
    ensures { result ≡ size_in (notes names.now name.now) }
{
    names.find(name).map_or(0, |note| u32::from(note.slots) + 1)
}

// The variable at a slot of the name's block, if it has the slot.
pub(crate) fn cell_variable(names: &NameTable, name: &[u8], slot: u16) -> Option<u8>
    ensures { (es : List Entry) → Places es (notes names.now) → result ≡ (if nat_lt slot (size_of es name.now) then Some (first_of es name.now + slot) else None) }
{
    let note = names.find(name)?;
    if slot > u16::from(note.slots) {
        return None;
    }
    u8::try_from(note.first?.saturating_add(slot)).ok()
}

// The variable of a place that is read from a text, if the name has the place's slot.
pub(crate) fn place_variable(names: &NameTable, text: &[u8], place: Place) -> Option<u8>
    ensures { (es : List Entry) → Places es (notes names.now) → result ≡ known_variable es (place_in text.now place) }
{
    let name = bytes_of(text, place.base);
    if has_slot(place.slot, block_size(names, name)) {
        cell_variable(names, name, slot_number(place.slot))
    } else {
        None
    }
}

// The variable of the pointer of a text's indirect call i, from 0.
pub(crate) fn pointer_variable(names: &NameTable, text: &[u8], i: usize) -> Option<u8>
    ensures { (es : List Entry) → Places es (notes names.now) → result ≡ cell_if_within es (pointer text.now i) }
{
    let place = call_pointer(text, i)?;
    cell_variable(names, bytes_of(text, place.base), slot_number(place.slot))
}
