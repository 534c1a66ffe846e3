//! Published netlists, full tables and each refusal, through the public calls; prints a line a case. What it has to print is worked out by
//! tools/published_cases.py, a model of its own. Which of several smallest sizings is found is open, so what it adds and reaches is
//! printed, and the queues only where there is one such sizing.
#![tactic(auto)]

mod asked;
mod cycle;
mod family;
mod nets;
mod refusals;

use crate::asked::{Aim, rated_text, sized};
use crate::cycle::cycle_text;
use crate::nets::netlist_of_shape;
use drafts::{SAMPLE, TEN, VIDEO, line};
use netlist::{Netlist, ReadError};
use report::rate_text;
use std::alloc::{AllocError, Global};

fn sample(rt: &HostRuntime) -> anyhow::Result<()> {
    let text = rate_text(rt.alloc(), &SAMPLE)?;
    print!(rt; "{text}")?;
    Ok(())
}

fn show_cycle(
    rt: &HostRuntime,
    netlist: &Netlist,
    label: &str,
    walk: &[usize],
) -> anyhow::Result<()> {
    let mut sizing = [1; 10];
    sizing[9] = 2;
    let text = cycle_text(rt.alloc(), netlist, &sizing, walk)?;
    println!(rt; "{label}: {text}")?;
    Ok(())
}

// The named cycles of the netlist of ten channels, by the modules that they pass.
fn cycles(rt: &HostRuntime) -> anyhow::Result<()> {
    let netlist = netlist_of_shape(rt.alloc(), TEN)?;
    show_cycle(rt, &netlist, "C1", &[1, 7, 6, 4, 2, 1])?;
    show_cycle(rt, &netlist, "C2", &[1, 7, 6, 4, 5, 8, 3, 2, 1])?;
    show_cycle(rt, &netlist, "C3", &[4, 5, 8, 3, 4])?;
    show_cycle(rt, &netlist, "C4", &[4, 5, 8, 3, 2, 4])?;
    show_cycle(rt, &netlist, "C5", &[1, 7, 6, 4, 3, 2, 1])
}

// The slots that a sizing adds, those of all queues then, and the rate.
fn sized_text(
    heap: Global,
    netlist: &Netlist,
    aim: Aim<'_>,
    table: &mut [u8],
) -> Result<String, ReadError> {
    let added = sized(netlist, aim, table)?;
    let slots = table
        .iter()
        .fold(0usize, |sum, size| sum.wrapping_add(usize::from(*size)));
    let rate = rated_text(heap, netlist, table)?;
    Ok(format!(in heap; "added {added}, {slots} slots in all, {rate}")?)
}

// The queues deeper than 1.
fn queues_text(heap: Global, table: &[u8]) -> Result<String, AllocError> {
    let mut text = String::new(heap);
    for (at, size) in table.iter().enumerate() {
        if *size > 1 {
            write!(text, ", channel {} has {size}", at + 1)?;
        }
    }
    Ok(text)
}

fn show_sizing(rt: &HostRuntime, label: &str, aim: Aim<'_>) -> anyhow::Result<Vec<u8>> {
    let heap = rt.alloc();
    let netlist = netlist_of_shape(heap, VIDEO)?;
    let mut table = vec![in heap; 1; 21]?;
    let text = line(heap, sized_text(heap, &netlist, aim, table.as_mut_slice()))?;
    print!(rt; "{label}: {text}")?;
    Ok(table)
}

// The video decoder with caps of 3, for each target.
fn video_decoder(rt: &HostRuntime) -> anyhow::Result<()> {
    for (target, allowance) in [
        ((5, 7), 8),
        ((3, 4), 8),
        ((4, 5), 8),
        ((4, 5), 2),
        ((3, 4), 0),
        ((5, 6), 8),
    ] {
        let (a, b) = target;
        let label = format!(in rt.alloc(); "video decoder, {a}/{b}, at most {allowance}")?;
        let aim = Aim {
            target,
            caps: &[3; 21],
            allowance,
        };
        show_sizing(rt, label.as_str(), aim)?;
        println!(rt; "")?;
    }
    Ok(())
}

// With the queue from 2 to 11 as it is, one sizing is the smallest.
fn settled(rt: &HostRuntime) -> anyhow::Result<()> {
    let mut caps = [3; 21];
    caps[20] = 1;
    let aim = Aim {
        target: (4, 5),
        caps: &caps,
        allowance: 8,
    };
    let table = show_sizing(rt, "video decoder, 4/5, 2 to 11 kept", aim)?;
    let queues = queues_text(rt.alloc(), table.as_slice())?;
    println!(rt; "{queues}")?;
    Ok(())
}

fn main(rt: HostRuntime) -> anyhow::Result<()> {
    sample(&rt)?;
    cycles(&rt)?;
    video_decoder(&rt)?;
    settled(&rt)?;
    family::show_all(&rt)?;
    refusals::show_all(&rt)
}
