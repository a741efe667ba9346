// The walk of each kind of constraint, proved once for every solver.
#![tactic(auto)]

ghost use Rattle.std.specs.Prelude.{◌≡◌, ℕ, ◌+◌, ◌<◌, ◌≤◌, MatchOption};
ghost use Rattle.constraints.specs.Rows.{Rows, pairs};
ghost use Rattle.constraints.specs.Constraint.{System, length_of, Meets};
ghost use Rattle.constraints.specs.declared.constraint.Constraint.TheVariants.{Load as load, Store as store};
ghost use Rattle.constraints.specs.Lists.{system_of};
ghost use Rattle.rows.specs.Stores.{NextOf};
ghost use Rattle.walks.specs.Rules.{Includes, LoadFrom, StoreInto, Rule, Below};
ghost use Rattle.walks.specs.Grown.{Grown, Adds};
ghost use Rattle.walks.specs.Visits.{Visits, Visited};

use constraints::{Constraint, ConstraintList};
use rows::StoreFault;

// Rows that grow pair by pair, with a note of each new pair.
// Stays: variables and objects are `u16` with a bound, as `Constraint` and the stores have them; as `u8` each call of those would convert.
pub trait Grower {
    ghost rows: { Self → Rows };

    // The room of the rows.
    ghost limit: { Self → ℕ };

    // What is noted on the way from one state to another, over a list.
    ghost notes: { System → Self → Self → Type 0 };

    // Adds a pair, and notes it where it is new.
    fn add(&mut self, list: &ConstraintList, v: u16, o: u16) -> Result<(), StoreFault>
        requires variable { v < 256 }
        requires object { o < 256 }
        ensures { Adds rows limit (notes (system_of list.now)) (λ P R. R v o) self.old self.new result };

    // The smallest object of row v at or above `from`.
    fn next(&self, v: u16, from: u16) -> Result<Option<u16>, StoreFault>
        ensures { NextOf (rows self.now) v from result };

    ghost still: { (sys : System) (s : Self) → notes sys s s };

    ghost onward: { (sys : System) (s t u : Self) → notes sys s t → notes sys t u → notes sys s u };
}

// Visits the objects of row v in their order, those among them that a visit adds further on.
pub fn for_each_object<G: Grower, F: Fn(&mut G, u16) -> Result<(), StoreFault>>(
    g: &mut G,
    v: u16,
    visit: F,
) -> Result<(), StoreFault>
    requires row { v < 256 }
    requires callable { (h : _) (o : ℕ) → o < 256 → F.pre visit h o }
    ensures { Visited G.rows (Visits F.Fn visit) v 0 g.old g.new result }
{
    let mut at = 0;
    while let Some(o) = g.next(v, at)? {
        visit(g, o)?;
        at = o + 1;
    }
    Ok(())
}

// Puts every object of row q into row p: the walk of a copy.
pub fn copy_row<G: Grower>(
    list: &ConstraintList,
    g: &mut G,
    p: u16,
    q: u16,
) -> Result<(), StoreFault>
    requires target { p < 256 }
    requires source { q < 256 }
    ensures { Adds G.rows G.limit (G.notes (system_of list.now)) (Includes p q) g.old g.new result }
{
    let visit = |g: &mut G, o: u16|
        requires target { p < 256 }
        requires object { o < 256 }
        ensures { Adds G.rows G.limit (G.notes (system_of list.entry.now)) (λ P R. R p o) g.old g.new result }
    { g.add(list, p, o) };
    for_each_object(g, q, visit)
}

// The variable at offset k of the block of o, if that is longer than k.
pub fn slot(list: &ConstraintList, o: u16, k: u16) -> Option<u16>
    ensures { MatchOption result (length_of (system_of list.now).blocks o ≤ k) (λ v. (v ≡ o + k) × (k < length_of (system_of list.now).blocks o) × (v < 256)) }
{
    if k < u16::from(list.length_of(usize::from(o))) {
        Some(o + k)
    } else {
        None
    }
}

// Puts row o + k into row p, where the block of o is longer than k.
// Stays: here and below the numbers of a load and of a store stand one by one, since a struct of them would say a variant of `Constraint` again.
pub fn load_from<G: Grower>(
    list: &ConstraintList,
    g: &mut G,
    p: u16,
    o: u16,
    k: u16,
) -> Result<(), StoreFault>
    requires target { p < 256 }
    ensures { Adds G.rows G.limit (G.notes (system_of list.now)) (LoadFrom (system_of list.now).blocks p o k) g.old g.new result }
{
    match slot(list, o, k) {
        Some(row) => copy_row(list, g, p, row),
        None => Ok(()),
    }
}

// Puts row q into row o + k, where the block of o is longer than k.
pub fn store_into<G: Grower>(
    list: &ConstraintList,
    g: &mut G,
    o: u16,
    k: u16,
    q: u16,
) -> Result<(), StoreFault>
    requires source { q < 256 }
    ensures { Adds G.rows G.limit (G.notes (system_of list.now)) (StoreInto (system_of list.now).blocks o k q) g.old g.new result }
{
    match slot(list, o, k) {
        Some(row) => copy_row(list, g, row, q),
        None => Ok(()),
    }
}

// Walks a load of q at k into p.
pub fn walk_load<G: Grower>(
    list: &ConstraintList,
    g: &mut G,
    p: u16,
    q: u16,
    k: u16,
) -> Result<(), StoreFault>
    requires target { p < 256 }
    requires source { q < 256 }
    ensures { Adds G.rows G.limit (G.notes (system_of list.now)) (Rule (system_of list.now).blocks (load p q k)) g.old g.new result }
{
    let visit = |g: &mut G, o: u16|
        requires { p < 256 }
        ensures { Adds G.rows G.limit (G.notes (system_of list.entry.now)) (LoadFrom (system_of list.entry.now).blocks p o k) g.old g.new result }
    { load_from(list, g, p, o, k) };
    for_each_object(g, q, visit)
}

// Walks a store of q through p at k.
pub fn walk_store<G: Grower>(
    list: &ConstraintList,
    g: &mut G,
    p: u16,
    k: u16,
    q: u16,
) -> Result<(), StoreFault>
    requires target { p < 256 }
    requires source { q < 256 }
    ensures { Adds G.rows G.limit (G.notes (system_of list.now)) (Rule (system_of list.now).blocks (store p k q)) g.old g.new result }
{
    let visit = |g: &mut G, o: u16|
        requires { q < 256 }
        ensures { Adds G.rows G.limit (G.notes (system_of list.entry.now)) (StoreInto (system_of list.entry.now).blocks o k q) g.old g.new result }
    { store_into(list, g, o, k, q) };
    for_each_object(g, p, visit)
}

// Walks a constraint: it adds only pairs that lie in all rows which contain those found and meet the constraint's rule,
// and unless the store refuses, what the rule asks from the rows as found is there afterwards.
pub fn walk<G: Grower>(list: &ConstraintList, g: &mut G, c: Constraint) -> Result<(), StoreFault>
    requires known { Below 256 c }
    ensures { Grown G.rows G.limit (G.notes (system_of list.now)) (λ R. Meets (system_of list.now).blocks c (pairs R)) g.old g.new (Rule (system_of list.now).blocks c (pairs (G.rows g.old)) (pairs (G.rows g.new))) result }
{
    match c {
        Constraint::Address { left, object } => g.add(list, left, object),
        Constraint::Copy { left, right } => copy_row(list, g, left, right),
        Constraint::Load {
            left,
            right,
            offset,
        } => walk_load(list, g, left, right, offset),
        Constraint::Store {
            left,
            offset,
            right,
        } => walk_store(list, g, left, offset, right),
    }
}
