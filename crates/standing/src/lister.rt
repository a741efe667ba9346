// Listing the words of the standing units.
ghost use Rattle.std.specs.Prelude.{◌≡◌, ◌+◌, ◌≤◌, length, take};
ghost use Rattle.units.specs.Listing.{overlaid};
ghost use Rattle.books.specs.Listing.{listing_from};
ghost use Rattle.standing.specs.Knowledge.{text_of, texts_in};
ghost use Rattle.standing.specs.Firsts.{firsts_of, unit_listing};

use crate::firsts::Firsts;
use grammar::unit_text::UnitText;
use names::NameTable;
use units::listing::{ListedWord, list_words};

// Writes the words of a unit from position `from` on, if one stands there; the position after them.
fn list_unit(
    names: &NameTable,
    text: &Option<UnitText>,
    unit: usize,
    out: &mut [ListedWord],
    from: usize,
) -> usize
    ensures written { out.new ≡ overlaid out.old from (unit_listing (firsts_of names.now) unit (text_of text.now)) }
    ensures after { from + length (unit_listing (firsts_of names.now) unit (text_of text.now)) ≤ 512 → result ≡ from + length (unit_listing (firsts_of names.now) unit (text_of text.now)) }
{
    match text {
        Some(text) => from.saturating_add(list_words(
            text.as_slice(),
            unit,
            &Firsts { names },
            out,
            from,
        )),
        None => from,
    }
}

// Writes the words of the standing units by rising number; how many there are.
pub(crate) fn list_units(
    names: &NameTable,
    texts: &[Option<UnitText>],
    out: &mut [ListedWord],
) -> usize
    ensures { length out.old ≡ 512 → length (listing_from (firsts_of names.now) 0 (texts_in texts.now)) ≤ 512 → (result ≡ length (listing_from (firsts_of names.now) 0 (texts_in texts.now))) × (take result out.new ≡ listing_from (firsts_of names.now) 0 (texts_in texts.now)) }
{
    let mut from = 0;
    for (unit, text) in texts.iter().enumerate() {
        from = list_unit(names, text, unit, out, from);
    }
    from
}
