// The target list of a pointer: the functions in its row.
ghost use Rattle.std.specs.Prelude.{◌≡◌, ◌+◌, ◌<◌, ◌≤◌, List, length, slice_set};
ghost use Rattle.constraints.specs.Least.{least};
ghost use Rattle.units.specs.Listing.{overlaid};
ghost use Rattle.declarations.specs.Declarations.{Entry};
ghost use Rattle.books.specs.Targets.{line as name_line, targets as listing_of};
ghost use Rattle.standing.specs.States.{units_of};
ghost use Rattle.standing.specs.Lists.{list_in, owners_in};
ghost use Rattle.host_analyser.specs.Objects.{AnswersFor};
ghost use Rattle.host_analyser.specs.Listing.{Tabled, BlockAnswers, target_line};

use crate::asking::has_object;
use engine::Engine;
use standing::list::UnitList;
use standing::standing_units::StandingUnits;

// No name is longer.
// Stays: said here too, since the lexemes and the names keep theirs private, and the clauses say the number.
const LONGEST_NAME: usize = 24;

// Stays: beside its like for words, since one for both would be a public function below for three lines.
fn put(out: &mut [u8], at: usize, byte: u8)
    ensures { out.new ≡ slice_set out.old at byte }
{
    if at < out.len() {
        out[at] = byte;
    }
}

// Writes a name and a line feed from position n on, as far as there are places; the position after it.
// Stays: buffer and position are apart, since the position counts on past the buffer's end.
fn put_line(out: &mut [u8], n: usize, name: &[u8]) -> usize
    requires { n ≤ 6400 }
    ensures written { length name.now ≤ 24 → out.new ≡ overlaid out.old n (name_line name.now) }
    ensures count { length name.now ≤ 24 → result ≡ n + length (name_line name.now) }
    ensures bound { result ≤ n + 25 }
{
    let short = &name[..name.len().min(LONGEST_NAME)];
    for (k, byte) in short.iter().enumerate() {
        put(out, n + k, *byte);
    }
    put(out, n + short.len(), b'\n');
    n + short.len() + 1
}

// Writes the name of a block if it is a function's and the row of v has its object.
// Stays: its seven parameters meet in this one call, and a struct of a few would be made for it alone.
fn put_target<E: Engine>(
    engine: &mut E,
    v: u8,
    size: u8,
    first: u16,
    name: &[u8],
    out: &mut [u8],
    n: usize,
) -> usize
    requires { n ≤ 6400 }
    ensures written { BlockAnswers (E.meaning engine.old) v first name.now → out.new ≡ overlaid out.old n (target_line (least (E.meaning engine.old).system v) size first name.now) }
    ensures count { BlockAnswers (E.meaning engine.old) v first name.now → result ≡ n + length (target_line (least (E.meaning engine.old).system v) size first name.now) }
    ensures bound { result ≤ n + 25 }
    ensures stays { E.meaning engine.new ≡ E.meaning engine.old }
{
    match u8::try_from(first) {
        Ok(object) if size > 1 && has_object(engine, v, object) => put_line(out, n, name),
        _ => n,
    }
}

// Writes the functions in the row of v by rising object, each with a line feed, as far as there are places; how many
// bytes they have.
pub(crate) fn list_targets<E: Engine>(
    engine: &mut E,
    units: &StandingUnits,
    list: &UnitList,
    v: u8,
    out: &mut [u8],
) -> usize
    ensures written { (es : List Entry) → Tabled es (E.meaning engine.old).system (units_of units.now) (list_in list.now) (owners_in list.now) → AnswersFor (E.meaning engine.old) v → out.new ≡ overlaid out.old 0 (listing_of es (least (E.meaning engine.old).system v)) }
    ensures count { (es : List Entry) → Tabled es (E.meaning engine.old).system (units_of units.now) (list_in list.now) (owners_in list.now) → AnswersFor (E.meaning engine.old) v → result ≡ length (listing_of es (least (E.meaning engine.old).system v)) }
    ensures stays { E.meaning engine.new ≡ E.meaning engine.old }
{
    let count = list.blocks().len().min(256); // no list has more
    let mut first = 0;
    let mut n = 0;
    for (size, owner) in list.blocks()[..count].iter().zip(list.owners()) {
        n = put_target(engine, v, *size, first, units.name_at(*owner), out, n);
        first = first.saturating_add(u16::from(*size));
    }
    n
}
