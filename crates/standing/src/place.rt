// Laying out the names of texts, a block each.
ghost use Rattle.std.specs.Prelude.{◌≡◌, ℕ, ◌+◌, List, [], take, Some, None, Ok as Fine, slice_index_or};
ghost use Rattle.grammar.specs.Units.{read, outcome};
ghost use Rattle.declarations.specs.Declarations.{Entry, declarations_in};
ghost use Rattle.names.specs.Held.{notes};
ghost use Rattle.books.specs.Books.{Units, standing, table};
ghost use Rattle.standing.specs.Knowledge.{text_of, texts_in, Knows};
ghost use Rattle.standing.specs.Layout.{Laid, SameNotes, Fits, Layable, lay_entry, lay_all, StandingTexts};

use crate::cursor::Declarations;
use crate::list::{Owner, UnitList};
use grammar::unit_text::UnitText;
use lexemes::lexeme::bytes_of;
use names::NameTable;

// Stays: the table and the list are lent side by side, since a struct of both would be two more loans for one pass.

// Gives the name the next block, unless it has one.
fn place_name(names: &mut NameTable, name: &[u8], owner: Owner, list: &mut UnitList)
    ensures same { SameNotes (notes names.old) (notes names.new) }
    ensures laid { (units : Units) (es : List Entry) (k : ℕ) → Fits units es (record { name = name.now; slots = k }) owner (notes names.old name.now) → Laid units es (notes names.old) list.old → Laid units (lay_entry es (record { name = name.now; slots = k })) (notes names.new) list.new }
{
    let Some(note) = names.find(name) else {
        return;
    };
    if note.first.is_none() {
        names.place(name, list.variables());
        list.push_block(note.slots.saturating_add(1), owner);
    }
}

// Lays out the names of a unit's text in order of declaration, those that have no block yet.
fn place_names(names: &mut NameTable, text: &[u8], unit: usize, list: &mut UnitList)
    ensures same { SameNotes (notes names.old) (notes names.new) }
    ensures laid { (units : Units) (es : List Entry) → slice_index_or units unit None ≡ Some text.now → Fine tt ≡ outcome (read text.now) → Layable es (declarations_in text.now) (notes names.old) → Laid units es (notes names.old) list.old → Laid units (lay_all es (declarations_in text.now)) (notes names.new) list.new }
{
    for found in Declarations::new(text) {
        let owner = Owner {
            unit,
            span: found.name,
        };
        place_name(names, bytes_of(text, found.name), owner, list);
    }
}

// Lays out the names of a unit, if one stands there.
fn place_unit(names: &mut NameTable, text: &Option<UnitText>, unit: usize, list: &mut UnitList)
    ensures same { SameNotes (notes names.old) (notes names.new) }
    ensures laid { (units : Units) → slice_index_or units unit None ≡ text_of text.now → StandingTexts units → Knows (notes names.old) (standing units) → Laid units (table (standing (take unit units))) (notes names.old) list.old → Laid units (table (standing (take (unit + 1) units))) (notes names.new) list.new }
{
    if let Some(text) = text {
        place_names(names, text.as_slice(), unit, list);
    }
}

// Lays out the names of the standing units, by rising number.
pub(crate) fn place_units(names: &mut NameTable, texts: &[Option<UnitText>], list: &mut UnitList)
    ensures same { SameNotes (notes names.old) (notes names.new) }
    ensures laid { StandingTexts (texts_in texts.now) → Knows (notes names.old) (standing (texts_in texts.now)) → Laid (texts_in texts.now) [] (notes names.old) list.old → Laid (texts_in texts.now) (table (standing (texts_in texts.now))) (notes names.new) list.new }
{
    for (unit, text) in texts.iter().enumerate() {
        place_unit(names, text, unit, list);
    }
}
