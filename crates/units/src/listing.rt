// The words of a whole text, in order.
ghost use Rattle.std.specs.Prelude.{◌≡◌, ◌+◌, ◌≤◌, length, slice_set};
ghost use Rattle.grammar.specs.Meanings.{statement_in};
ghost use Rattle.units.specs.Listing.{listed, listing, overlaid, words_in};

use crate::names::FirstVariables;
use crate::words::{Reader, word_count};
use grammar::state::Found;
use grammar::unit::{Items, check_text};

// A word of a list, with its unit and the offset of its statement.
#[derive(Clone, Copy, PartialEq, Eq, Debug)]
pub struct ListedWord {
    pub word: u32,
    pub unit: usize,
    pub at: usize,
}

// Writes at position from + k, if there is one.
// Stays: `from` may lie past the end, where a slice from it on would end the run.
fn put(out: &mut [ListedWord], from: usize, k: usize, word: ListedWord)
    ensures { out.new ≡ slice_set out.old (from + k) word }
{
    match from.checked_add(k) {
        Some(at) if at < out.len() => out[at] = word,
        _ => {}
    }
}

// Writes the words of a statement from position from + k on; how many words there are then.
fn list_statement<N: FirstVariables>(
    reader: &Reader<N>,
    unit: usize,
    found: Found,
    out: &mut [ListedWord],
    from: usize,
    k: usize,
) -> usize
    requires { k ≤ 28672 }
    ensures written { out.new ≡ overlaid out.old (from + k) (listed (N.first reader.now.names.now) unit (statement_in reader.now.text.now found)) }
    ensures count { result ≡ k + length (listed (N.first reader.now.names.now) unit (statement_in reader.now.text.now found)) }
    ensures few { result ≤ k + 7 }
{
    let at = found.at;
    let words = reader.words_of(found.item);
    let words = words.as_slice();
    for (i, word) in words.iter().enumerate() {
        let word = *word;
        put(out, from, k + i, ListedWord { word, unit, at });
    }
    k + words.len()
}

// Writes the words of a text from position `from` on, as far as there are positions, and answers how many words it has.
pub fn list_words<N: FirstVariables>(
    text: &[u8],
    unit: usize,
    names: &N,
    out: &mut [ListedWord],
    from: usize,
) -> usize
    ensures written { out.new ≡ overlaid out.old from (listing (N.first names.now) unit text.now) }
    ensures count { result ≡ length (listing (N.first names.now) unit text.now) }
{
    if check_text(text).is_err() {
        return 0;
    }
    let reader = Reader { text, names };
    let mut k = 0;
    for found in Items::new(text, 0) {
        k = list_statement(&reader, unit, found, out, from, k);
    }
    k
}

// How many words a text has.
pub fn count_words(text: &[u8]) -> usize
    ensures { result ≡ length (words_in text.now) }
{
    if check_text(text).is_err() {
        return 0;
    }
    let mut count = 0;
    for found in Items::new(text, 0) {
        count += word_count(found.item);
    }
    count
}
