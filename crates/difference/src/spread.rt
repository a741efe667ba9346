// Handing one pair on, by each kind of constraint.
ghost use Rattle.std.specs.Prelude.{◌≡◌, ℕ, ◌+◌, ◌<◌, ◌≤◌, T, length, Ok, Err};
ghost use Rattle.constraints.specs.Rows.{pairs};
ghost use Rattle.constraints.specs.Constraint.{length_of, constraint, Meets, Solves, first};
ghost use Rattle.constraints.specs.Lists.{system_of};
ghost use Rattle.constraints.specs.declared.constraint.Constraint.TheVariants.{Load as load, Store as store};
ghost use Rattle.walks.specs.Rules.{Below};
ghost use Rattle.walks.specs.Grown.{Grown, Adds};
ghost use Rattle.difference.specs.Handed.{LoadBase, LoadValue, StoreBase, PutAt, PutAtEach, StoreValue, Handed};

use crate::pending::Pair;
use constraints::{Constraint, ConstraintList};
use rows::StoreFault;
use walks::{Grower, for_each_object, load_from, slot, store_into};

// Whether row v holds o.
fn holds<G: Grower>(g: &G, v: u16, o: u16) -> Result<bool, StoreFault>
    requires variable { v < 256 }
    ensures { elim result [ Ok b ↦ b ≡ G.rows g.now v o | Err e ↦ ⊥ ] }
{
    Ok(g.next(v, o)? == Some(o))
}

// Where the pair is (q, o): row o + k into row p.
// Stays: here and below the numbers of a load and of a store stand one by one, since a struct of them would say a variant of `Constraint` again.
fn load_base<G: Grower>(
    list: &ConstraintList,
    g: &mut G,
    p: u16,
    q: u16,
    k: u16,
    pair: Pair,
) -> Result<(), StoreFault>
    requires target { p < 256 }
    ensures { Adds G.rows G.limit (G.notes (system_of list.now)) (LoadBase (system_of list.now).blocks p q k pair.variable pair.object) g.old g.new result }
{
    if q == u16::from(pair.variable) {
        load_from(list, g, p, u16::from(pair.object), k)
    } else {
        Ok(())
    }
}

// Where the pair is (v, o), with v at offset k of an object in row q: o into row p.
fn load_value<G: Grower>(
    list: &ConstraintList,
    g: &mut G,
    p: u16,
    q: u16,
    k: u16,
    pair: Pair,
) -> Result<(), StoreFault>
    requires target { p < 256 }
    requires source { q < 256 }
    ensures { Adds G.rows G.limit (G.notes (system_of list.now)) (LoadValue (system_of list.now).blocks p q k pair.variable pair.object) g.old g.new result }
{
    let Some(y) = u16::from(pair.variable).checked_sub(k) else {
        return Ok(());
    };
    if slot(list, y, k).is_none() {
        return Ok(());
    }
    if holds(g, q, y)? {
        g.add(list, p, u16::from(pair.object))
    } else {
        Ok(())
    }
}

// Hands the pair on by a load of q at k into p.
fn spread_load<G: Grower>(
    list: &ConstraintList,
    g: &mut G,
    p: u16,
    q: u16,
    k: u16,
    pair: Pair,
) -> Result<(), StoreFault>
    requires target { p < 256 }
    requires source { q < 256 }
    requires held { T (G.rows g.old pair.variable pair.object) }
    ensures { Grown G.rows G.limit (G.notes (system_of list.now)) (λ R. Meets (system_of list.now).blocks (load p q k) (pairs R)) g.old g.new (Handed (system_of list.now).blocks (load p q k) pair.variable pair.object (pairs (G.rows g.old)) (pairs (G.rows g.new))) result }
{
    load_base(list, g, p, q, k, pair)?;
    load_value(list, g, p, q, k, pair)
}

// Where the pair is (p, o): row q into row o + k.
fn store_base<G: Grower>(
    list: &ConstraintList,
    g: &mut G,
    p: u16,
    k: u16,
    q: u16,
    pair: Pair,
) -> Result<(), StoreFault>
    requires source { q < 256 }
    ensures { Adds G.rows G.limit (G.notes (system_of list.now)) (StoreBase (system_of list.now).blocks p k q pair.variable pair.object) g.old g.new result }
{
    if p == u16::from(pair.variable) {
        store_into(list, g, u16::from(pair.object), k, q)
    } else {
        Ok(())
    }
}

// Puts the object into row y + k, where the block of y is longer than k.
fn put_at<G: Grower>(
    list: &ConstraintList,
    g: &mut G,
    y: u16,
    k: u16,
    object: u8,
) -> Result<(), StoreFault>
    ensures { Adds G.rows G.limit (G.notes (system_of list.now)) (PutAt (system_of list.now).blocks y k object) g.old g.new result }
{
    match slot(list, y, k) {
        Some(row) => g.add(list, row, u16::from(object)),
        None => Ok(()),
    }
}

// Puts the object into row y + k for each y in row p whose block is longer than k.
fn store_each<G: Grower>(
    list: &ConstraintList,
    g: &mut G,
    p: u16,
    k: u16,
    object: u8,
) -> Result<(), StoreFault>
    requires target { p < 256 }
    ensures { Adds G.rows G.limit (G.notes (system_of list.now)) (PutAtEach (system_of list.now).blocks p k object) g.old g.new result }
{
    let visit = |g: &mut G, y: u16|
        ensures { Adds G.rows G.limit (G.notes (system_of list.entry.now)) (PutAt (system_of list.entry.now).blocks y k object) g.old g.new result }
    { put_at(list, g, y, k, object) };
    for_each_object(g, p, visit)
}

// Where the pair is (q, o): o into row y + k for each y in row p.
fn store_value<G: Grower>(
    list: &ConstraintList,
    g: &mut G,
    p: u16,
    k: u16,
    q: u16,
    pair: Pair,
) -> Result<(), StoreFault>
    requires target { p < 256 }
    ensures { Adds G.rows G.limit (G.notes (system_of list.now)) (StoreValue (system_of list.now).blocks p k q pair.variable pair.object) g.old g.new result }
{
    if q == u16::from(pair.variable) {
        store_each(list, g, p, k, pair.object)
    } else {
        Ok(())
    }
}

// Hands the pair on by a store of q through p at k.
fn spread_store<G: Grower>(
    list: &ConstraintList,
    g: &mut G,
    p: u16,
    k: u16,
    q: u16,
    pair: Pair,
) -> Result<(), StoreFault>
    requires target { p < 256 }
    requires source { q < 256 }
    requires held { T (G.rows g.old pair.variable pair.object) }
    ensures { Grown G.rows G.limit (G.notes (system_of list.now)) (λ R. Meets (system_of list.now).blocks (store p k q) (pairs R)) g.old g.new (Handed (system_of list.now).blocks (store p k q) pair.variable pair.object (pairs (G.rows g.old)) (pairs (G.rows g.new))) result }
{
    store_base(list, g, p, k, q, pair)?;
    store_value(list, g, p, k, q, pair)
}

// Where the pair is (q, o): o into row p.
fn spread_copy<G: Grower>(
    list: &ConstraintList,
    g: &mut G,
    p: u16,
    q: u16,
    pair: Pair,
) -> Result<(), StoreFault>
    requires target { p < 256 }
    ensures { Adds G.rows G.limit (G.notes (system_of list.now)) (λ P R. (q ≡ pair.variable → R p pair.object)) g.old g.new result }
{
    if q == u16::from(pair.variable) {
        g.add(list, p, u16::from(pair.object))
    } else {
        Ok(())
    }
}

// Hands the pair on by a constraint. An address asks nothing of a pair.
pub fn spread<G: Grower>(
    list: &ConstraintList,
    g: &mut G,
    c: Constraint,
    pair: Pair,
) -> Result<(), StoreFault>
    requires known { Below 256 c }
    requires held { T (G.rows g.old pair.variable pair.object) }
    ensures { Grown G.rows G.limit (G.notes (system_of list.now)) (λ R. Meets (system_of list.now).blocks c (pairs R)) g.old g.new (Handed (system_of list.now).blocks c pair.variable pair.object (pairs (G.rows g.old)) (pairs (G.rows g.new))) result }
{
    match c {
        Constraint::Address { .. } => Ok(()),
        Constraint::Copy { left, right } => spread_copy(list, g, left, right, pair),
        Constraint::Load {
            left,
            right,
            offset,
        } => spread_load(list, g, left, right, offset, pair),
        Constraint::Store {
            left,
            offset,
            right,
        } => spread_store(list, g, left, offset, right, pair),
    }
}

// Hands the pair on by each of the first n words.
pub fn hand_on<G: Grower>(
    list: &ConstraintList,
    n: usize,
    g: &mut G,
    pair: Pair,
) -> Result<(), StoreFault>
    requires short { n ≤ length (system_of list.now).words }
    requires held { T (G.rows g.old pair.variable pair.object) }
    ensures { Grown G.rows G.limit (G.notes (system_of list.now)) (Solves (first n (system_of list.now))) g.old g.new ((j : ℕ) → j < n → Handed (system_of list.now).blocks (constraint (system_of list.now) j) pair.variable pair.object (pairs (G.rows g.old)) (pairs (G.rows g.new))) result }
{
    for word in &list.words()[..n] {
        spread(list, g, Constraint::decode(*word), pair)?;
    }
    Ok(())
}
