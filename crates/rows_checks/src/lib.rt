// Runs of operations over row stores: what every store replies, and that no run tells two stores apart.
#![tactic(auto)]

ghost use Rattle.std.specs.Prelude.{◌≡◌, true};
ghost use Rattle.rows_checks.specs.Runs.{reply_of, pairs_after};

use rows::{Added, RowStore, StoreFault};

#[derive(Clone, Copy, Debug)]
pub enum Operation {
    Wipe,
    Room,
    Put(u16, u16),
    Has(u16, u16),
    Next(u16, u16),
    Size(u16),
}

// What a store answers to an operation that it does not refuse.
#[derive(Clone, Copy, PartialEq, Eq, Debug)]
pub enum Answer {
    Wiped,
    Room(u32),
    Put(Added),
    Has(bool),
    Next(Option<u16>),
    Size(u16),
}

// One operation.
pub fn run<S: RowStore>(store: &mut S, operation: Operation) -> Result<Answer, StoreFault>
    ensures reply { result ≡ reply_of operation (S.room store.old) (S.pairs store.old) }
    ensures after { S.pairs store.new ≡ pairs_after operation (S.room store.old) (S.pairs store.old) }
    ensures fixed { S.room store.new ≡ S.room store.old }
{
    Ok(match operation {
        Operation::Wipe => {
            store.wipe();
            Answer::Wiped
        }
        Operation::Room => Answer::Room(store.room()),
        Operation::Put(v, o) => Answer::Put(store.put(v, o)?),
        Operation::Has(v, o) => Answer::Has(store.has(v, o)?),
        Operation::Next(v, start) => Answer::Next(store.next(v, start)?),
        Operation::Size(v) => Answer::Size(store.size(v)?),
    })
}

// Whether two stores reply alike to one operation. Stores that mean the same do, and still mean the same.
fn alike_once<S: RowStore, T: RowStore>(one: &mut S, other: &mut T, operation: Operation) -> bool
    ensures replies { S.RowStore.pairs one.old ≡ T.RowStore.pairs other.old → S.RowStore.room one.old ≡ T.RowStore.room other.old → result ≡ true }
    ensures one { S.RowStore.pairs one.new ≡ pairs_after operation (S.RowStore.room one.old) (S.RowStore.pairs one.old) }
    ensures one_fixed { S.RowStore.room one.new ≡ S.RowStore.room one.old }
    ensures other { T.RowStore.pairs other.new ≡ pairs_after operation (T.RowStore.room other.old) (T.RowStore.pairs other.old) }
    ensures other_fixed { T.RowStore.room other.new ≡ T.RowStore.room other.old }
{
    run(one, operation) == run(other, operation)
}

// Whether two stores reply alike to a run of operations. Stores that mean the same always do.
pub fn alike<S: RowStore, T: RowStore>(one: &mut S, other: &mut T, operations: &[Operation]) -> bool
    ensures { S.RowStore.pairs one.old ≡ T.RowStore.pairs other.old → S.RowStore.room one.old ≡ T.RowStore.room other.old → result ≡ true }
{
    operations
        .iter()
        .all(|operation| alike_once(one, other, *operation))
}

#[cfg(test)]
mod tests {
    use super::*;
    use bit_rows::BitRows;
    use chains::{Cell, Chains};
    use std::test::Fail;

    const USED: Cell = Cell { object: 9, link: 9 };

    // Operations on few pairs, the edges of the numbers among them.
    const TABLE: [Operation; 18] = [
        Operation::Put(3, 200),
        Operation::Put(3, 7),
        Operation::Put(3, 100),
        Operation::Put(3, 7),
        Operation::Put(255, 255),
        Operation::Put(256, 0),
        Operation::Put(0, 256),
        Operation::Has(255, 255),
        Operation::Has(255, 256),
        Operation::Has(4, 7),
        Operation::Next(3, 0),
        Operation::Next(3, 8),
        Operation::Next(3, 65535),
        Operation::Next(256, 0),
        Operation::Size(3),
        Operation::Size(256),
        Operation::Wipe,
        Operation::Size(3),
    ];

    #[test]
    fn stores_reply_alike(rt: HostRuntime) -> Result<(), Fail> {
        let mut bits = BitRows::new(vec![in rt.alloc(); 9; 2049]?);
        let mut chains = Chains::new(vec![in rt.alloc(); USED; 5]?);
        assert_eq!(rt; alike(&mut bits, &mut chains, &TABLE), true);
        assert_eq!(rt; bits.room(), 65536);
        assert_eq!(rt; chains.room(), 5);
        assert_eq!(rt; bits.into_words().last().copied(), Some(9));
        Ok(())
    }

    #[test]
    fn replies(rt: HostRuntime) -> Result<(), Fail> {
        let mut store = Chains::new(vec![in rt.alloc(); USED; 4]?);
        assert_eq!(rt; store.put(3, 200), Ok(Added::New));
        assert_eq!(rt; store.put(3, 7), Ok(Added::New));
        assert_eq!(rt; store.put(3, 7), Ok(Added::Old));
        assert_eq!(rt; store.put(256, 0), Err(StoreFault::Outside));
        assert_eq!(rt; store.next(3, 8), Ok(Some(200)));
        assert_eq!(rt; store.next(3, 201), Ok(None));
        assert_eq!(rt; store.size(3), Ok(2));
        Ok(())
    }

    #[test]
    fn no_room(rt: HostRuntime) -> Result<(), Fail> {
        let mut bits = BitRows::new(vec![in rt.alloc(); 9; 2047]?);
        let mut chains = Chains::new(Vec::new(rt.alloc()));
        assert_eq!(rt;
            bits.put(3, 200),
            Err(StoreFault::Full {
                variable: 3,
                object: 200,
            })
        );
        assert_eq!(rt; alike(&mut bits, &mut chains, &TABLE), true);
        assert_eq!(rt; bits.into_words().first().copied(), Some(9));
        Ok(())
    }

    // Puts pairs of `rows` whole rows, and counts those that are new.
    fn fill<S: RowStore>(store: &mut S, rows: u16) -> u32 {
        let mut new = 0u32;
        for v in 0..rows {
            for o in 0..256 {
                if let Ok(Added::New) = store.put(v, o) {
                    new = new.saturating_add(1);
                }
            }
        }
        new
    }

    #[test]
    fn last_cell(rt: HostRuntime) -> Result<(), Fail> {
        let mut store = Chains::new(vec![in rt.alloc(); USED; 16385]?);
        assert_eq!(rt; fill(&mut store, 65), 16384);
        assert_eq!(rt;
            store.put(64, 1),
            Err(StoreFault::Full {
                variable: 64,
                object: 1,
            })
        );
        store.wipe();
        assert_eq!(rt; store.put(64, 1), Ok(Added::New));
        assert_eq!(rt; store.into_cells().last().copied(), Some(USED));
        Ok(())
    }
}
