// Runs piles of layers over both solvers and both stores on lists with known outcomes, and prints what each does.
#![tactic(auto)]

use bit_rows::BitRows;
use chains::{Cell, Chains};
use difference::difference_over;
use engine::{Engine, EngineFault};
use hu::Hu;
use hvn::Hvn;
use layers::{Merge, Merging};
use rows::StoreFault;
use std::alloc::{AllocError, Global};
use std::io;
use worklist::worklist_over;

// A list, and what it shows.
#[derive(Clone, Copy)]
struct Case<'a> {
    name: &'a str,
    blocks: &'a [u8],
    words: &'a [u32],
}

fn bits(heap: Global) -> Result<BitRows, AllocError> {
    Ok(BitRows::new(vec![in heap; 0; 2048]?))
}

fn chained(heap: Global, cells: usize) -> Result<Chains, AllocError> {
    let unused = Cell { object: 0, link: 0 };
    Ok(Chains::new(vec![in heap; unused; cells]?))
}

// Clears the engine, gives it a list and settles it.
fn settle_list<E: Engine>(engine: &mut E, case: Case<'_>) -> Result<(), EngineFault> {
    engine.clear();
    for n in case.blocks {
        engine.block(*n)?;
    }
    for word in case.words {
        engine.add(*word)?;
    }
    engine.settle()
}

// The pairs that the engine answers: how many, and a sum that tells sets of pairs apart.
fn pairs_of<E: Engine>(engine: &mut E) -> (u32, u32) {
    let mut count: u32 = 0;
    let mut sum: u32 = 0;
    for v in 0..256 {
        for o in 0..256 {
            if let Ok(true) = engine.holds(v, o) {
                count = count.wrapping_add(1);
                sum = sum
                    .wrapping_mul(31)
                    .wrapping_add(u32::from(v) * 256 + u32::from(o));
            }
        }
    }
    (count, sum)
}

fn show_fault(rt: &impl Print, fault: EngineFault) -> io::Result<()> {
    match fault {
        EngineFault::NoRoom(o) => {
            let position = o.position;
            let depth = o.depth;
            match o.store {
                StoreFault::Full { variable, object } => {
                    println!(rt;
                        "no room at position {position}, depth {depth}, pair ({variable}, {object})"
                    )
                }
                StoreFault::Outside => println!(rt; "outside"),
            }
        }
        other => {
            let number = other.number();
            println!(rt; "refused {number}")
        }
    }
}

fn show<E: Engine>(rt: &impl Print, pile: &str, engine: &mut E, case: Case<'_>) -> io::Result<()> {
    print!(rt; "  {pile}: ")?;
    match settle_list(engine, case) {
        Ok(()) => {
            let (count, sum) = pairs_of(engine);
            println!(rt; "{count} pairs, sum {sum}")
        }
        Err(fault) => show_fault(rt, fault),
    }
}

// Which variables a layer has replaced, and by which.
fn show_replaced<M: Merge, E: Engine>(rt: &impl Print, engine: &Merging<M, E>) -> io::Result<()> {
    for v in 0..256 {
        if let Some(r) = engine.representative(v).filter(|r| *r != v) {
            print!(rt; ", {v} by {r}")?;
        }
    }
    println!(rt; "")
}

// The words that a layer has handed down.
fn show_handed(rt: &impl Print, words: &[u32]) -> io::Result<()> {
    let count = words.len();
    print!(rt; "    {count} words handed down")?;
    if count <= 6 {
        for word in words {
            print!(rt; " {word:08x}")?;
        }
    }
    println!(rt; "")
}

// The same of a layer, with what it replaced and handed down.
fn show_layer<M: Merge, E: Engine>(
    rt: &impl Print,
    pile: &str,
    engine: &mut Merging<M, E>,
    case: Case<'_>,
) -> io::Result<()> {
    show(rt, pile, engine, case)?;
    let replaced = engine.replaced();
    print!(rt; "    {replaced} replaced")?;
    show_replaced(rt, engine)?;
    show_handed(rt, engine.handed())
}

// Fresh engines of a kind: one plain, and the others under one layer or two, in both orders.
fn show_piles<E: Engine + Drop, F: Fn() -> io::Result<E>>(
    rt: &impl Print,
    kind: &str,
    make: F,
    case: Case<'_>,
) -> io::Result<()>
    requires { F.IsAlwaysCallable make }
{
    println!(rt; " {kind}")?;
    show(rt, "plain", &mut make()?, case)?;
    show_layer(rt, "hvn", &mut Merging::new(Hvn::new(), make()?), case)?;
    show_layer(rt, "hu", &mut Merging::new(Hu::new(), make()?), case)?;
    let hvn = Merging::new(Hvn::new(), make()?);
    show_layer(rt, "hu+hvn", &mut Merging::new(Hu::new(), hvn), case)?;
    let hu = Merging::new(Hu::new(), make()?);
    show_layer(rt, "hvn+hu", &mut Merging::new(Hvn::new(), hu), case)
}

fn every_pile(rt: &impl Print, heap: Global, case: Case<'_>) -> io::Result<()> {
    let name = case.name;
    println!(rt; "{name}")?;
    show_piles(rt, "worklist/bits", || Ok(worklist_over(bits(heap)?)), case)?;
    show_piles(
        rt,
        "worklist/chains",
        || Ok(worklist_over(chained(heap, 1024)?)),
        case,
    )?;
    show_piles(
        rt,
        "difference/bits",
        || Ok(difference_over(bits(heap)?)),
        case,
    )?;
    show_piles(
        rt,
        "difference/chains",
        || Ok(difference_over(chained(heap, 1024)?)),
        case,
    )
}

// 33 objects in row 33, copied to 31 others.
fn fan_out(heap: Global) -> Result<Vec<u32>, AllocError> {
    let held = (0..33u32).map(|object| 33 * 4096 + object);
    let copies = (34..65u32).map(|row| 0x4000_0000 + row * 4096 + 33);
    held.chain(copies).collect(heap)
}

// A room fault's depth rises by one with each layer. The first word is a copy onto itself, which no layer hands down.
fn higher<E: Engine + Drop>(rt: &impl Print, mut engine: E, case: Case<'_>) -> io::Result<()> {
    show(rt, "height 0", &mut engine, case)?;
    let mut engine = Merging::new(Hvn::new(), engine);
    show_layer(rt, "height 1", &mut engine, case)?;
    let mut engine = Merging::new(Hu::new(), engine);
    show_layer(rt, "height 2", &mut engine, case)?;
    let mut engine = Merging::new(Hvn::new(), engine);
    show_layer(rt, "height 3", &mut engine, case)?;
    let fewer = case.words.len().saturating_sub(1);
    let shorter = Case {
        words: &case.words[..fewer],
        ..case
    };
    show_layer(
        rt,
        "afterwards, without the last word",
        &mut engine,
        shorter,
    )
}

fn depths(rt: &impl Print, heap: Global) -> io::Result<()> {
    let case = Case {
        name: "three objects in row 3, room for two pairs",
        blocks: &[1; 4],
        words: &[0x4000_3003, 0x0000_3000, 0x0000_3001, 0x0000_3002],
    };
    let name = case.name;
    println!(rt; "{name}")?;
    higher(rt, worklist_over(chained(heap, 2)?), case)
}

fn main(rt: HostRuntime) -> io::Result<()> {
    let heap = rt.alloc();
    let fan = fan_out(heap)?;
    let cases = [
        Case {
            name: "no block, no word",
            blocks: &[],
            words: &[],
        },
        Case {
            name: "a chain of copies",
            blocks: &[1; 5],
            words: &[0x0000_2000, 0x4000_3002, 0x4000_4003],
        },
        Case {
            name: "a set and a part of it",
            blocks: &[1; 6],
            words: &[
                0x0000_2000,
                0x0000_3001,
                0x4000_4002,
                0x4000_4003,
                0x4000_5004,
                0x4000_5002,
            ],
        },
        Case {
            name: "a store past a block's end",
            blocks: &[3, 1, 1],
            words: &[0x0000_4000, 0x0000_3003, 0xD800_4003],
        },
        Case {
            name: "a store into a block's last cell",
            blocks: &[3, 1, 1],
            words: &[0x0000_4000, 0x0000_3003, 0xD000_4003],
        },
        Case {
            name: "an indirect call of two functions",
            blocks: &[3, 3, 1, 1, 1],
            words: &[0x0000_7000, 0x0000_7003, 0xD000_7006, 0x8800_8007],
        },
        Case {
            name: "33 objects copied to 31 rows",
            blocks: &[1; 65],
            words: &fan,
        },
    ];
    for case in cases {
        every_pile(&rt, heap, case)?;
    }
    depths(&rt, heap)
}
