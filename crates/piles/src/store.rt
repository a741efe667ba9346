// One of two stores.
ghost use Rattle.std.specs.Prelude.{◌≡◌};
ghost use Rattle.piles.specs.Choices.{chosen};

use crate::Choice;
use rows::{Added, RowStore, StoreFault};

// Stays: an arm for each store in each call, since the two have unlike types and no closure takes both.
impl<A: RowStore, B: RowStore> RowStore for Choice<A, B> {
    ghost pairs = { chosen A.RowStore.pairs B.RowStore.pairs };

    ghost room = { chosen A.RowStore.room B.RowStore.room };

    ghost spare = { chosen A.RowStore.spare B.RowStore.spare };

    fn room(&self) -> u32 {
        match self {
            Choice::First(a) => a.room(),
            Choice::Second(b) => b.room(),
        }
    }

    fn put(&mut self, v: u16, o: u16) -> Result<Added, StoreFault> {
        match self {
            Choice::First(a) => a.put(v, o),
            Choice::Second(b) => b.put(v, o),
        }
    }

    fn has(&self, v: u16, o: u16) -> Result<bool, StoreFault> {
        match self {
            Choice::First(a) => a.has(v, o),
            Choice::Second(b) => b.has(v, o),
        }
    }

    fn next(&self, v: u16, start: u16) -> Result<Option<u16>, StoreFault> {
        match self {
            Choice::First(a) => a.next(v, start),
            Choice::Second(b) => b.next(v, start),
        }
    }

    fn size(&self, v: u16) -> Result<u16, StoreFault> {
        match self {
            Choice::First(a) => a.size(v),
            Choice::Second(b) => b.size(v),
        }
    }

    fn wipe(&mut self) {
        match self {
            Choice::First(a) => a.wipe(),
            Choice::Second(b) => b.wipe(),
        }
    }
}
