// Four engines, two solvers over two stores, on known lists; with --time also lists at the limits, with the time of each.
#![tactic(auto)]

mod case;
mod outcome;

use bit_rows::BitRows;
use case::Case;
use chains::{Cell, Chains};
use difference::difference_over;
use engine::Engine;
use hu::Hu;
use hvn::Hvn;
use layers::Merging;
use outcome::{Outcome, run_list};
use rows::RowStore;
use std::time::Instant;
use std::{env, io};
use worklist::worklist_over;

// Runs an engine on a list and shows what comes of it, with the time if that is wanted.
// Not inlined: compiled into one function with another engine's, difference propagation took 1.4 times as long.
#[inline(never)]
fn measure<E: Engine>(
    rt: &HostRuntime,
    name: &str,
    engine: &mut E,
    case: &Case,
    times: bool,
) -> io::Result<Outcome> {
    let start = Instant::now(rt)?;
    let outcome = run_list(engine, case);
    let micros = start.elapsed(rt)?.as_micros();
    if times {
        println!(rt; "  {name}: {outcome} ({micros} us)")?;
    } else {
        println!(rt; "  {name}: {outcome}")?;
    }
    Ok(outcome)
}

// A store of bits, and below one of chains, in memory from the heap.
// Stays: layers_checks has the like of both; no crate is below these two programs alone.
fn bits(rt: &HostRuntime) -> io::Result<BitRows> {
    let words = vec![in rt.alloc(); 0u32; 2048]?;
    Ok(BitRows::new(words))
}

fn chained(rt: &HostRuntime, cells: usize) -> io::Result<Chains> {
    let links = vec![in rt.alloc(); Cell { object: 0, link: 0 }; cells]?;
    Ok(Chains::new(links))
}

// Both solvers, each over a store of a kind, one after the other. Not inlined, so that not all four engines are on the stack.
#[inline(never)]
fn both<S: RowStore + Drop, F: Fn() -> io::Result<S>>(
    rt: &HostRuntime,
    names: [&str; 2],
    make: F,
    case: &Case,
    times: bool,
) -> io::Result<[Outcome; 2]>
    requires { F.IsAlwaysCallable make }
{
    let one = measure(rt, names[0], &mut worklist_over(make()?), case, times)?;
    let two = measure(rt, names[1], &mut difference_over(make()?), case, times)?;
    Ok([one, two])
}

// Runs a list over the four engines, chains with so many cells.
fn compare(rt: &HostRuntime, name: &str, case: &Case, cells: usize, times: bool) -> io::Result<()> {
    println!(rt; "{name}")?;
    let names = ["worklist/bits", "difference/bits"];
    let in_bits = both(rt, names, || bits(rt), case, times)?;
    let names = ["worklist/chains", "difference/chains"];
    let in_chains = both(rt, names, || chained(rt, cells), case, times)?;
    if in_bits[0] == in_bits[1] && in_chains[0] == in_chains[1] {
        println!(rt; "  both solvers agree over each store")
    } else {
        println!(rt; "  THE SOLVERS DIFFER")
    }
}

// Runs a list under each layer over the plain worklist, and over a store without room: there the layer's own work is all.
fn layered(rt: &HostRuntime, case: &Case) -> io::Result<()> {
    measure(
        rt,
        "hvn+worklist/bits",
        &mut Merging::new(Hvn::new(), worklist_over(bits(rt)?)),
        case,
        true,
    )?;
    measure(
        rt,
        "hu+worklist/bits",
        &mut Merging::new(Hu::new(), worklist_over(bits(rt)?)),
        case,
        true,
    )?;
    measure(
        rt,
        "hvn by itself, no room below",
        &mut Merging::new(Hvn::new(), worklist_over(chained(rt, 0)?)),
        case,
        true,
    )?;
    measure(
        rt,
        "hu by itself, no room below",
        &mut Merging::new(Hu::new(), worklist_over(chained(rt, 0)?)),
        case,
        true,
    )?;
    Ok(())
}

fn known_lists(rt: &HostRuntime, times: bool) -> io::Result<()> {
    let heap = rt.alloc();
    compare(rt, "no words", &Case::of(heap, 0, &[])?, 1024, times)?;
    let chain = Case::of(heap, 5, &[0x00002000, 0x40003002, 0x40004003])?;
    compare(rt, "a chain of copies", &chain, 1024, times)?;
    let joined = Case::of(
        heap,
        6,
        &[
            0x00002000, 0x00003001, 0x40004002, 0x40004003, 0x40005004, 0x40005002,
        ],
    )?;
    compare(rt, "two objects joined", &joined, 1024, times)?;
    compare(
        rt,
        "33 objects in one row, copied to 31 others",
        &case::copied(heap, 33, 31)?,
        1024,
        times,
    )
}

fn at_the_limit(rt: &HostRuntime, name: &str, case: &Case) -> io::Result<()> {
    compare(rt, name, case, 16384, true)?;
    layered(rt, case)
}

fn lists_at_the_limits(rt: &HostRuntime) -> io::Result<()> {
    let heap = rt.alloc();
    at_the_limit(rt, "512 words of all kinds", &case::mixed(heap)?)?;
    at_the_limit(
        rt,
        "a long chain in the worst order, 60 objects",
        &case::long_chain(heap, 60)?,
    )?;
    at_the_limit(rt, "a star of loads and stores", &case::star(heap)?)?;
    at_the_limit(rt, "all 65,536 pairs", &case::full(heap)?)
}

fn main(rt: HostRuntime) -> io::Result<()> {
    let times = env::args(&rt)?.any(|arg| arg.as_str() == "--time");
    known_lists(&rt, times)?;
    if times {
        lists_at_the_limits(&rt)?;
    }
    Ok(())
}
