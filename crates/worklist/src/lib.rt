// The plain worklist: the words that may have something to add wait, and each is walked whole.
#![tactic(auto)]

mod waiting;

ghost use Rattle.std.specs.Prelude.{◌≡◌, false};
ghost use Rattle.constraints.specs.Constraint.{Solves, first};
ghost use Rattle.constraints.specs.Lists.{system_of, no_words};
ghost use Rattle.walks.specs.Grown.{Grown, Any};
ghost use Rattle.solvers.specs.Taking.{solver_meaning};
ghost use Rattle.worklist.specs.Waits.{waits, reads, Marks, Noted, Ready, Idle};
ghost use Rattle.worklist.specs.Notes.{noted_still, noted_then};

use constraints::{Constraint, ConstraintList};
use rows::{Added, RowStore, StoreFault};
use solvers::{Propagation, Solver};
pub use waiting::Waiting;
use walks::{Grower, slot, walk};

// Whether the rule of c may read row v.
fn reads_row(list: &ConstraintList, c: Constraint, v: u16) -> bool
    ensures { result ≡ reads (system_of list.now).blocks c v }
{
    match c {
        Constraint::Address { .. } => false,
        Constraint::Copy { right, .. } => v == right,
        Constraint::Load { right, offset, .. } => {
            v == right
                || v.checked_sub(offset)
                    .is_some_and(|o| slot(list, o, offset).is_some())
        }
        Constraint::Store { left, right, .. } => v == left || v == right,
    }
}

// Puts each of the first n words that may read row v on the worklist.
fn mark(list: &ConstraintList, n: usize, waiting: &mut Waiting, v: u16)
    ensures { Marks (system_of list.now) n v (waits waiting.old) (waits waiting.new) }
{
    let words = list.words();
    for (j, word) in words[..n.min(words.len())].iter().enumerate() {
        if reads_row(list, Constraint::decode(*word), v) {
            waiting.insert(j);
        }
    }
}

// Rows, how many words are taken in, and which of these wait.
#[derive(Drop)]
pub struct Worklist<S: RowStore> {
    store: S,
    taken: usize,
    waiting: Waiting,
}

impl<S: RowStore> Grower for Worklist<S> {
    ghost rows = { λ w. S.RowStore.pairs w.store };

    ghost limit = { λ w. S.RowStore.room w.store };

    ghost notes = { λ sys w u. Noted sys w.taken u.taken (S.RowStore.pairs w.store) (S.RowStore.pairs u.store) (waits w.waiting) (waits u.waiting) };

    ghost still = { λ sys w. noted_still sys w.taken (S.RowStore.pairs w.store) (waits w.waiting) };

    ghost onward = { λ sys s t u a b. noted_then sys _ _ _ _ _ _ _ _ _ a b };

    fn add(&mut self, list: &ConstraintList, v: u16, o: u16) -> Result<(), StoreFault> {
        if self.store.put(v, o)? == Added::New {
            mark(list, self.taken, &mut self.waiting, v);
        }
        Ok(())
    }

    fn next(&self, v: u16, from: u16) -> Result<Option<u16>, StoreFault> {
        self.store.next(v, from)
    }
}

// Walks the words that wait until none does.
fn run<S: RowStore>(list: &ConstraintList, work: &mut Worklist<S>) -> Result<(), StoreFault>
    requires ready { Ready (system_of list.now) work.old.taken (S.pairs work.old.store) (waits work.old.waiting) }
    ensures { Grown (λ w. S.pairs w.store) (λ w. S.room w.store) Any (Solves (first work.old.taken (system_of list.now))) work.old work.new (Solves (first work.old.taken (system_of list.now)) (S.pairs work.new.store) × Idle (waits work.new.waiting)) result }
{
    while let Some(j) = work.waiting.first() {
        work.waiting.remove(j);
        walk(list, work, Constraint::decode(list.words()[j]))?;
    }
    Ok(())
}

impl<S: RowStore> Propagation for Worklist<S> {
    ghost rows = { λ w. S.RowStore.pairs w.store };

    ghost limit = { λ w. S.RowStore.room w.store };

    ghost idle = { λ w. Idle (waits w.waiting) };

    fn restart(&mut self) {
        self.store.wipe();
        self.waiting.clear();
    }

    fn take_in(&mut self, list: &ConstraintList, i: usize) -> Result<(), StoreFault> {
        self.taken = i + 1;
        self.waiting.insert(i);
        run(list, self)
    }

    fn has(&self, v: u16, o: u16) -> Result<bool, StoreFault> {
        self.store.has(v, o)
    }

    fn next(&self, v: u16, from: u16) -> Result<Option<u16>, StoreFault> {
        Grower::next(self, v, from)
    }

    fn size(&self, v: u16) -> Result<u16, StoreFault> {
        self.store.size(v)
    }

    fn room(&self) -> u32 {
        self.store.room()
    }
}

// A solver by a plain worklist, over a store in any state.
pub fn worklist_over<S: RowStore>(store: S) -> Solver<Worklist<S>>
    ensures means { solver_meaning (S.room result.work.store) (system_of result.list) result.settled ≡ solver_meaning (S.room store) no_words false }
{
    Solver::new(Worklist {
        store,
        taken: 0,
        waiting: Waiting::new(),
    })
}
