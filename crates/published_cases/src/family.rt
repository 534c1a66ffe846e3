// Netlists of 64 modules and 192 channels.
use crate::asked::{Aim, foretold, rated_text, sized};
use crate::nets::netlist_of;
use drafts::{Draft, line};
use netlist::{Kind, Netlist, ReadError};
use std::alloc::Global;

// A line of blocks, so many behind the first, and so many relay stations on a way from its first block to its last. The channels
// that are left are the first link of the line once more. The rate 1 takes a slot on the line for each relay station, and one on the
// first link is of no use.
fn full(heap: Global, blocks: usize, relays: usize) -> anyhow::Result<Draft> {
    let mut draft = Draft::new(heap);
    let first = draft.add(Kind::Block)?;
    let last = draft.run(first, Kind::Block, blocks)?;
    draft.way(first, Kind::RelayStation, relays, last)?;
    for _ in draft.channels()..192 {
        draft.join(1, 2)?;
    }
    Ok(draft)
}

// Deepens the queues for the rate 1, none above 2.
fn size_text(heap: Global, netlist: &Netlist, table: &mut [u8]) -> Result<String, ReadError> {
    let aim = Aim {
        target: (1, 1),
        caps: &[2; 192],
        allowance: 8,
    };
    let added = sized(netlist, aim, table)?;
    Ok(format!(in heap; "added {added}")?)
}

// The rate under a sizing, and the firings of the first module and of the last after a thousand free steps.
fn table_text(heap: Global, netlist: &Netlist, sizing: &[u8]) -> Result<String, ReadError> {
    let rate = rated_text(heap, netlist, sizing)?;
    let mut firings = [0; 64];
    foretold(netlist, sizing, 1000, &mut firings)?;
    let [first, .., last] = firings;
    Ok(format!(in heap; "{rate}, firings {first} and {last}")?)
}

fn show(rt: &HostRuntime, blocks: usize, relays: usize) -> anyhow::Result<()> {
    let heap = rt.alloc();
    let draft = full(heap, blocks, relays)?;
    let file = draft.file(heap)?;
    let netlist = netlist_of(heap, file.as_slice())?;
    let mut table = [1; 192];
    let before = line(heap, table_text(heap, &netlist, &table))?;
    println!(rt; "full table, relay stations {relays}: {before}")?;
    let answer = line(heap, size_text(heap, &netlist, &mut table))?;
    let after = line(heap, table_text(heap, &netlist, &table))?;
    println!(rt; "full table, relay stations {relays}, for 1/1: {answer}, then {after}")?;
    Ok(())
}

pub fn show_all(rt: &HostRuntime) -> anyhow::Result<()> {
    show(rt, 62, 1)?;
    show(rt, 59, 4)?;
    show(rt, 55, 8)?;
    show(rt, 54, 9)
}
