// Solvers: engines that take a list in word by word, each time to the smallest solution so far.
#![tactic(auto)]

mod solver;

ghost use Rattle.std.specs.Prelude.{◌≡◌, ℕ, ◌<◌, ◌≤◌, length};
ghost use Rattle.constraints.specs.Rows.{Rows, empty, total};
ghost use Rattle.constraints.specs.Constraint.{first};
ghost use Rattle.constraints.specs.Least.{least};
ghost use Rattle.constraints.specs.Lists.{system_of};
ghost use Rattle.rows.specs.Stores.{HasOf, NextOf, SizeOf};
ghost use Rattle.solvers.specs.Taking.{Took};

use constraints::ConstraintList;
use rows::StoreFault;
pub use solver::Solver;

// A way to bring rows from the smallest solution of the first words to that with one word more.
pub trait Propagation {
    ghost rows: { Self → Rows };

    // The room of the rows.
    ghost limit: { Self → ℕ };

    // No work waits.
    ghost idle: { Self → Type 0 };

    // Forgets all pairs, whatever the state was.
    fn restart(&mut self)
        ensures empties { rows self.new ≡ empty }
        ensures rests { idle self.new }
        ensures fixed { limit self.new ≡ limit self.old };

    // Takes in the word at position i.
    fn take_in(&mut self, list: &ConstraintList, i: usize) -> Result<(), StoreFault>
        requires place { i < length (system_of list.now).words }
        requires rests { idle self.old }
        requires so_far { rows self.old ≡ least (first i (system_of list.now)) }
        requires fits { total (rows self.old) ≤ limit self.old }
        ensures takes { Took (limit self.old) (system_of list.now) i (rows self.new) (idle self.new) result }
        ensures fixed { limit self.new ≡ limit self.old };

    fn has(&self, v: u16, o: u16) -> Result<bool, StoreFault>
        ensures { HasOf (rows self.now) v o result };

    fn next(&self, v: u16, from: u16) -> Result<Option<u16>, StoreFault>
        ensures { NextOf (rows self.now) v from result };

    fn size(&self, v: u16) -> Result<u16, StoreFault>
        ensures { SizeOf (rows self.now) v result };

    fn room(&self) -> u32
        ensures { result ≡ limit self.now };
}
