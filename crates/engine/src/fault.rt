// What an engine refuses with.
ghost use Rattle.std.specs.Prelude.{◌≡◌, cond, Ok, Err};
ghost use Rattle.engine.specs.Faults.{refusal, from_store, stopped_at};
ghost use Rattle.engine.specs.declared.fault.EngineFault.TheVariants.{Settled, Rejected};

use constraints::ListFault;
use rows::StoreFault;

// Where a list stopped fitting.
#[derive(Clone, Copy, PartialEq, Eq, Debug)]
pub struct Overflow {
    // of a word in the list
    pub position: u16,
    // how many layers the fault came up through, 255 for more
    pub depth: u8,
    // the store's fault, with a pair of the smallest solution
    pub store: StoreFault,
}

#[derive(Clone, Copy, PartialEq, Eq, Debug)]
pub enum EngineFault {
    // a block, a word or a settle while settled
    Settled,
    // a block or a word that the list does not take
    Rejected(ListFault),
    // the list does not fit
    NoRoom(Overflow),
    // a question while gathering
    Gathering,
    // a question about a variable in no block, or a number that is no object
    Outside,
}

impl EngineFault {
    // The number under which the refusal is known.
    // Stays: by a match, since the numbers are those that hosts know.
    pub fn number(self) -> u8
        ensures { result ≡ (refusal self).0 }
    {
        match self {
            EngineFault::Settled => 1,
            EngineFault::Rejected(fault) => fault.number(),
            EngineFault::NoRoom(_) => 6,
            EngineFault::Gathering => 7,
            EngineFault::Outside => 8,
        }
    }
}

// A store's fault, and the position of the word that was being taken in.
#[derive(Clone, Copy, PartialEq, Eq, Debug)]
pub struct Stopped {
    pub position: u16,
    pub store: StoreFault,
}

// Refuses while settled.
pub fn gathering(settled: bool) -> Result<(), EngineFault>
    ensures { result ≡ cond settled (Err Settled) (Ok tt) }
{
    if settled {
        Err(EngineFault::Settled)
    } else {
        Ok(())
    }
}

// Stays: by hand, since clauses name the fault that a `?` makes.
impl From<ListFault> for EngineFault {
    ghost from_gives = { λ f r. r ≡ Rejected f };

    fn from(fault: ListFault) -> EngineFault {
        EngineFault::Rejected(fault)
    }
}

// A store's fault at a question is that the variable or the object is too large.
// Stays: by hand, since clauses name the fault that a `?` makes.
impl From<StoreFault> for EngineFault {
    ghost from_gives = { λ f r. r ≡ from_store f };

    fn from(fault: StoreFault) -> EngineFault {
        match fault {
            StoreFault::Outside => EngineFault::Outside,
            StoreFault::Full { .. } => EngineFault::from(Stopped {
                position: 0,
                store: fault,
            }),
        }
    }
}

// Stays: by hand, since clauses name the fault that a `?` makes.
impl From<Stopped> for EngineFault {
    ghost from_gives = { λ f r. r ≡ stopped_at f.position f.store };

    fn from(fault: Stopped) -> EngineFault {
        EngineFault::NoRoom(Overflow {
            position: fault.position,
            depth: 0,
            store: fault.store,
        })
    }
}
