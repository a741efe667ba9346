// The engine over any propagation.
ghost use Rattle.std.specs.Prelude.{◌≡◌, false, nat_lt};
ghost use Rattle.constraints.specs.Lists.{system_of, no_words};
ghost use Rattle.constraints.specs.Constraint.{var_count};
ghost use Rattle.engine.specs.Meanings.{answer};
ghost use Rattle.solvers.specs.Taking.{SettledList, solver_meaning, Solved};
ghost use Rattle.solvers.specs.Roominess.{solver_roomy};

use crate::Propagation;
use constraints::ConstraintList;
use engine::{Engine, EngineFault, Stopped, gathering};

// Takes the words in, one by one. The word at which the store is full is the earliest whose list does not fit:
// before it the rows were those of a list that does.
fn settle_list<P: Propagation>(list: &ConstraintList, work: &mut P) -> Result<(), Stopped>
    ensures settles { SettledList (P.limit work.old) (system_of list.now) (P.rows work.new) result }
    ensures fixed { P.limit work.new ≡ P.limit work.old }
{
    work.restart();
    for i in 0..list.words().len() {
        work.take_in(list, i).map_err(|store| Stopped {
            position: i as u16,
            store,
        })?;
    }
    Ok(())
}

// A list, the rows found for it, and whether they are its smallest solution.
#[derive(Drop)]
pub struct Solver<P: Propagation> {
    list: ConstraintList,
    work: P,
    // Stays: a flag beside the rows, since their memory is kept while gathering.
    settled: bool,
    ghost solved: { Solved (P.Propagation.rows work) (system_of list) settled },
}

impl<P: Propagation> Solver<P> {
    // Empty and gathering, over rows in any state.
    pub fn new(work: P) -> Self
        ensures means { solver_meaning (P.limit result.work) (system_of result.list) result.settled ≡ solver_meaning (P.limit work) no_words false }
    {
        Solver {
            list: ConstraintList::new(),
            work,
            settled: false,
        }
    }

    // Whether a question about row v is answered.
    fn admit(&self, v: u16) -> Result<(), EngineFault>
        ensures { result ≡ answer (solver_meaning (P.limit self.now.work) (system_of self.now.list) self.now.settled) (nat_lt v (var_count (system_of self.now.list))) tt }
    {
        if !self.settled {
            return Err(EngineFault::Gathering);
        }
        if usize::from(v) >= self.list.variables() {
            return Err(EngineFault::Outside);
        }
        Ok(())
    }
}

impl<P: Propagation> Engine for Solver<P> {
    ghost meaning = { λ s. solver_meaning (P.Propagation.limit s.work) (system_of s.list) s.settled };

    ghost roomy = { λ s. solver_roomy (P.Propagation.limit s.work) };

    fn clear(&mut self) {
        self.settled = false;
        self.list.clear();
    }

    fn block(&mut self, n: u8) -> Result<u16, EngineFault> {
        gathering(self.settled)?;
        Ok(self.list.block(n)?)
    }

    fn add(&mut self, word: u32) -> Result<(), EngineFault> {
        gathering(self.settled)?;
        Ok(self.list.add(word)?)
    }

    fn settle(&mut self) -> Result<(), EngineFault> {
        gathering(self.settled)?;
        settle_list(&self.list, &mut self.work)?;
        self.settled = true;
        Ok(())
    }

    fn holds(&mut self, v: u16, o: u16) -> Result<bool, EngineFault> {
        self.admit(v)?;
        if self.list.length_of(usize::from(o)) == 0 {
            return Err(EngineFault::Outside);
        }
        Ok(self.work.has(v, o)?)
    }

    fn next(&mut self, v: u16, from: u16) -> Result<Option<u16>, EngineFault> {
        self.admit(v)?;
        Ok(self.work.next(v, from)?)
    }

    fn size(&mut self, v: u16) -> Result<u16, EngineFault> {
        self.admit(v)?;
        Ok(self.work.size(v)?)
    }

    fn room(&self) -> u32 {
        self.work.room()
    }
}
