// Row stores: sets of pairs of a variable and an object, within a room that is fixed at making.
#![tactic(auto)]

ghost use Rattle.std.specs.Prelude.{◌≡◌, ℕ, List, cond, Ok, Err, nat_lt};
ghost use Rattle.constraints.specs.Rows.{Rows, empty};
ghost use Rattle.rows.specs.declared.StoreFault.TheVariants.{Outside};
ghost use Rattle.rows.specs.Stores.{refusal, Within, PutOf, HasOf, NextOf, SizeOf};

// Whether a pair that was put is new to its store.
#[derive(Clone, Copy, PartialEq, Eq, Debug)]
pub enum Added {
    New,
    Old,
}

#[derive(Clone, Copy, PartialEq, Eq, Debug)]
pub enum StoreFault {
    // a variable or an object above 255
    Outside,
    // no room for this new pair
    Full { variable: u16, object: u16 },
}

impl StoreFault {
    // The number under which the refusal is known.
    // Stays: by a match, since the numbers are those that hosts know.
    pub fn number(&self) -> u8
        ensures { result ≡ (refusal self.now).0 }
    {
        match self {
            StoreFault::Outside => 8,
            StoreFault::Full { .. } => 6,
        }
    }
}

// A variable or an object that a store can hold.
pub fn checked(number: u16) -> Result<u8, StoreFault>
    ensures { result ≡ cond (nat_lt number 256) (Ok number) (Err Outside) }
{
    u8::try_from(number).map_err(|_| StoreFault::Outside)
}

// A store means a set of pairs, of a variable and an object below 256 each, and a room: the number of pairs that it can hold.
pub trait RowStore {
    ghost pairs: { Self → Rows };

    ghost room: { Self → ℕ };

    // what it was supplied with and does not use, number by number
    ghost spare: { Self → List ℕ };

    // The number of pairs that it can hold. It never holds more.
    fn room(&self) -> u32
        ensures value { result ≡ room self.now }
        ensures within { Within (room self.now) (pairs self.now) };

    // Adds a pair, unless it is there already or there is no room.
    fn put(&mut self, v: u16, o: u16) -> Result<Added, StoreFault>
        ensures does { PutOf (room self.old) (pairs self.old) (pairs self.new) v o result }
        ensures within { Within (room self.new) (pairs self.new) }
        ensures fixed { room self.new ≡ room self.old }
        ensures rest { spare self.new ≡ spare self.old };

    fn has(&self, v: u16, o: u16) -> Result<bool, StoreFault>
        ensures { HasOf (pairs self.now) v o result };

    // The smallest object of a row at or above `start`.
    fn next(&self, v: u16, start: u16) -> Result<Option<u16>, StoreFault>
        ensures { NextOf (pairs self.now) v start result };

    // The number of objects of a row.
    fn size(&self, v: u16) -> Result<u16, StoreFault>
        ensures { SizeOf (pairs self.now) v result };

    // Takes every pair out.
    fn wipe(&mut self)
        ensures empties { pairs self.new ≡ empty }
        ensures within { Within (room self.new) (pairs self.new) }
        ensures fixed { room self.new ≡ room self.old }
        ensures rest { spare self.new ≡ spare self.old };
}
