// Difference propagation: each pair is handed on once, by each word at most once.
#![tactic(auto)]

mod pending;
mod spread;

ghost use Rattle.std.specs.Prelude.{◌≡◌, false};
ghost use Rattle.constraints.specs.Constraint.{Solves, first};
ghost use Rattle.constraints.specs.Lists.{system_of, no_words};
ghost use Rattle.walks.specs.Grown.{Grown, Any};
ghost use Rattle.solvers.specs.Taking.{solver_meaning};
ghost use Rattle.difference.specs.Queue.{Noted, Counted, Ready, Idle};
ghost use Rattle.difference.specs.Notes.{noted_still, noted_then, counted_then};

use constraints::{Constraint, ConstraintList};
use pending::{Pair, Pending};
use rows::{Added, RowStore, StoreFault};
use solvers::{Propagation, Solver};
use spread::hand_on;
use walks::{Grower, walk};

// Rows, how many words are taken in, and the pairs that are not yet handed on.
#[derive(Drop)]
pub struct Difference<S: RowStore> {
    store: S,
    taken: usize,
    pending: Pending,
}

impl<S: RowStore> Grower for Difference<S> {
    ghost rows = { λ d. S.RowStore.pairs d.store };

    ghost limit = { λ d. S.RowStore.room d.store };

    ghost notes = { λ sys d e. (Counted (S.RowStore.pairs d.store) d.pending → Noted d.taken e.taken (S.RowStore.pairs d.store) (S.RowStore.pairs e.store) d.pending e.pending) };

    ghost still = { λ sys d counted. noted_still d.taken (S.RowStore.pairs d.store) d.pending };

    ghost onward = { λ sys s t u a b counted. noted_then _ _ _ _ _ _ _ _ _ (a counted) (b (counted_then _ _ _ _ _ _ counted (a counted))) };

    fn add(&mut self, _list: &ConstraintList, v: u16, o: u16) -> Result<(), StoreFault> {
        if self.store.put(v, o)? == Added::New {
            self.pending.push(Pair {
                variable: v as u8,
                object: o as u8,
            });
        }
        Ok(())
    }

    fn next(&self, v: u16, from: u16) -> Result<Option<u16>, StoreFault> {
        self.store.next(v, from)
    }
}

// Hands the pending pairs on until there is none.
fn run<S: RowStore>(list: &ConstraintList, work: &mut Difference<S>) -> Result<(), StoreFault>
    requires ready { Ready (system_of list.now) work.old.taken (S.pairs work.old.store) work.old.pending }
    ensures { Grown (λ d. S.pairs d.store) (λ d. S.room d.store) Any (Solves (first work.old.taken (system_of list.now))) work.old work.new (Solves (first work.old.taken (system_of list.now)) (S.pairs work.new.store) × Idle (S.pairs work.new.store) work.new.pending) result }
{
    while let Some(pair) = work.pending.first() {
        work.pending.advance();
        hand_on(list, work.taken, work, pair)?;
    }
    Ok(())
}

impl<S: RowStore> Propagation for Difference<S> {
    ghost rows = { λ d. S.RowStore.pairs d.store };

    ghost limit = { λ d. S.RowStore.room d.store };

    ghost idle = { λ d. Idle (S.RowStore.pairs d.store) d.pending };

    fn restart(&mut self) {
        self.store.wipe();
        self.pending.clear();
    }

    // A new word is walked once over the rows as found; what that adds is handed on by all words.
    fn take_in(&mut self, list: &ConstraintList, i: usize) -> Result<(), StoreFault> {
        self.taken = i + 1;
        walk(list, self, Constraint::decode(list.words()[i]))?;
        run(list, self)
    }

    fn has(&self, v: u16, o: u16) -> Result<bool, StoreFault> {
        self.store.has(v, o)
    }

    fn next(&self, v: u16, from: u16) -> Result<Option<u16>, StoreFault> {
        Grower::next(self, v, from)
    }

    fn size(&self, v: u16) -> Result<u16, StoreFault> {
        self.store.size(v)
    }

    fn room(&self) -> u32 {
        self.store.room()
    }
}

// A solver by difference propagation, over a store in any state.
pub fn difference_over<S: RowStore>(store: S) -> Solver<Difference<S>>
    ensures means { solver_meaning (S.room result.work.store) (system_of result.list) result.settled ≡ solver_meaning (S.room store) no_words false }
{
    Solver::new(Difference {
        store,
        taken: 0,
        pending: Pending::new(),
    })
}
