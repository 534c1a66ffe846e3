//! Rates small and full netlists, and prints what becomes of each. What it has to print is worked out by tools/rating_cases.py, a
//! model of its own. Which slow cycle a rating shows is open, so cycles are tested here and not printed.
#![tactic(auto)]

mod cycle;
mod outcome;

use crate::outcome::{Rooms, outcome};
use drafts::{ALONE, DIAMOND, ITSELF, PAIR, ROUND, SAMPLE, Shape, TEN, VIDEO, chain, line, ring};

// More than any netlist wants.
const AMPLE: Rooms = Rooms {
    cycle: 66,
    potentials: 67,
};

// Prints what becomes of a file under a sizing, with lists of these lengths.
fn show_file(
    rt: &HostRuntime,
    label: &str,
    file: &[u8],
    sizing: &[u8],
    rooms: Rooms,
) -> anyhow::Result<()> {
    let text = line(rt.alloc(), outcome(rt.alloc(), file, sizing, rooms))?;
    println!(rt; "{label}: {text}")?;
    Ok(())
}

// The same of a netlist.
fn show(
    rt: &HostRuntime,
    label: &str,
    shape: Shape<'_>,
    sizing: &[u8],
    rooms: Rooms,
) -> anyhow::Result<()> {
    let file = shape.file(rt.alloc())?;
    show_file(rt, label, file.as_slice(), sizing, rooms)
}

fn small(rt: &HostRuntime) -> anyhow::Result<()> {
    show_file(rt, "F", &SAMPLE, &[1; 3], AMPLE)?;
    show(rt, "one channel", PAIR, &[3], AMPLE)?;
    show(rt, "one block", ALONE, &[], AMPLE)?;
    show(rt, "one block to itself", ITSELF, &[1], AMPLE)?;
    show(rt, "ring of 3", ROUND, &[1; 3], AMPLE)
}

fn ten_channels(rt: &HostRuntime) -> anyhow::Result<()> {
    show(rt, "D", DIAMOND, &[1; 4], AMPLE)?;
    let mut sizing = [1; 10];
    sizing[9] = 2;
    show(rt, "ten channels", TEN, &sizing, AMPLE)?;
    sizing[3] = 2;
    show(rt, "ten channels, more on 1 to 2", TEN, &sizing, AMPLE)
}

fn video_decoder(rt: &HostRuntime) -> anyhow::Result<()> {
    let mut sizing = [1; 21];
    show(rt, "video decoder", VIDEO, &sizing, AMPLE)?;
    sizing[14] = 2;
    show(rt, "video decoder, more on 10 to 3", VIDEO, &sizing, AMPLE)?;
    sizing[11] = 2;
    show(rt, "video decoder, more on 9 to 10", VIDEO, &sizing, AMPLE)
}

// The slow cycle passes the last module and the last place, so the last size sets the rate.
fn chains(rt: &HostRuntime) -> anyhow::Result<()> {
    let channels = chain(rt.alloc())?;
    let shape = Shape::full(62, channels.as_slice());
    for last in [1, 2, 3, 16] {
        let mut sizing = [16; 192];
        sizing[191] = last;
        let label = format!(in rt.alloc(); "chain, queue {last} at the end")?;
        show(rt, label.as_str(), shape, &sizing, AMPLE)?;
    }
    Ok(())
}

// Rings of all modules, with lists that they just fit. Behind 33 blocks the way back from module 1 to 33 is a little slower
// than the ring, behind 31 only with one place less in its queue.
fn rings(rt: &HostRuntime) -> anyhow::Result<()> {
    let channels = ring(rt.alloc())?;
    let exact = Rooms {
        cycle: 64,
        potentials: 64,
    };
    for (blocks, size) in [(1, 16), (31, 16), (31, 15), (33, 16), (63, 16)] {
        let shape = Shape::full(blocks, channels.as_slice());
        let mut sizing = [16; 192];
        sizing[93] = size;
        let label = format!(in rt.alloc(); "ring of 64, blocks to {blocks}, queue {size}")?;
        show(rt, label.as_str(), shape, &sizing, exact)?;
    }
    Ok(())
}

fn refused_sizings(rt: &HostRuntime) -> anyhow::Result<()> {
    show(rt, "one size less", DIAMOND, &[1; 3], AMPLE)?;
    show(rt, "one size more", DIAMOND, &[1; 5], AMPLE)?;
    show(rt, "no sizes", DIAMOND, &[], AMPLE)?;
    show(
        rt,
        "one size more, and a size 0",
        DIAMOND,
        &[1, 0, 1, 1, 1],
        AMPLE,
    )?;
    show(rt, "size 0", DIAMOND, &[0, 1, 1, 1], AMPLE)?;
    show(rt, "size 17, then size 0", DIAMOND, &[1, 17, 0, 1], AMPLE)?;
    show(rt, "size 255", DIAMOND, &[16, 16, 16, 255], AMPLE)
}

fn refused_rooms(rt: &HostRuntime) -> anyhow::Result<()> {
    for (cycle, potentials) in [(4, 4), (3, 4), (4, 3), (0, 0), (3, 67), (66, 3)] {
        let label = format!(in rt.alloc(); "lists of {cycle} and {potentials}")?;
        show(
            rt,
            label.as_str(),
            DIAMOND,
            &[1; 4],
            Rooms { cycle, potentials },
        )?;
    }
    let none = Rooms {
        cycle: 0,
        potentials: 0,
    };
    show(rt, "no lists, and a size 0", DIAMOND, &[1, 1, 1, 0], none)?;
    show(rt, "no lists, and one size less", DIAMOND, &[1; 3], none)
}

// The full tables, refused for the last size or a list without its last entry.
fn refused_tables(rt: &HostRuntime) -> anyhow::Result<()> {
    let channels = ring(rt.alloc())?;
    let shape = Shape::full(31, channels.as_slice());
    for (last, cycle, potentials) in [(17, 64, 64), (0, 63, 63), (16, 63, 64), (16, 64, 63)] {
        let mut sizing = [16; 192];
        sizing[191] = last;
        let label = format!(in rt.alloc(); "last size {last}, lists of {cycle} and {potentials}")?;
        show(
            rt,
            label.as_str(),
            shape,
            &sizing,
            Rooms { cycle, potentials },
        )?;
    }
    show(rt, "191 sizes", shape, &[16; 191], AMPLE)?;
    show(rt, "193 sizes", shape, &[16; 193], AMPLE)
}

fn main(rt: HostRuntime) -> anyhow::Result<()> {
    small(&rt)?;
    ten_channels(&rt)?;
    video_decoder(&rt)?;
    chains(&rt)?;
    rings(&rt)?;
    refused_sizings(&rt)?;
    refused_rooms(&rt)?;
    refused_tables(&rt)
}
