//! Foretells small and full netlists, and prints what becomes of each. What it has to print is worked out by
//! tools/forecast_cases.py, a model of its own that moves the items of the queues step by step.
#![tactic(auto)]

mod outcome;

use crate::outcome::outcome;
use drafts::{ALONE, DIAMOND, ITSELF, PAIR, ROUND, Shape, TRIANGLE, line, ring};

// More entries than any netlist wants.
const AMPLE: usize = 67;

// Prints the firings after so many free steps, or the refusal.
fn show(
    rt: &HostRuntime,
    label: &str,
    shape: Shape<'_>,
    sizing: &[u8],
    steps: u32,
    room: usize,
) -> anyhow::Result<()> {
    let file = shape.file(rt.alloc())?;
    let text = line(
        rt.alloc(),
        outcome(rt.alloc(), file.as_slice(), sizing, steps, room),
    )?;
    println!(rt; "{label}, {steps} steps: {text}")?;
    Ok(())
}

fn step_by_step(rt: &HostRuntime) -> anyhow::Result<()> {
    for steps in 0..11 {
        show(rt, "F", TRIANGLE, &[1; 3], steps, AMPLE)?;
    }
    for steps in 0..11 {
        show(rt, "D", DIAMOND, &[1; 4], steps, AMPLE)?;
    }
    for steps in 0..6 {
        show(
            rt,
            "D, more on 2 to 3",
            DIAMOND,
            &[1, 2, 1, 1],
            steps,
            AMPLE,
        )?;
    }
    Ok(())
}

fn small(rt: &HostRuntime) -> anyhow::Result<()> {
    show(rt, "one block", ALONE, &[], 1_000_000, 1)?;
    show(rt, "one block to itself", ITSELF, &[1], 9, 1)?;
    show(rt, "one channel", PAIR, &[3], 5, 2)?;
    show(rt, "ring of 3", ROUND, &[1; 3], 100, AMPLE)
}

// All modules and channels, up to the last step that is allowed.
fn full(rt: &HostRuntime) -> anyhow::Result<()> {
    let channels = ring(rt.alloc())?;
    for (blocks, steps) in [
        (31, 0),
        (31, 1),
        (31, 100),
        (63, 1000),
        (1, 20_000),
        (33, 1_000_000),
    ] {
        let shape = Shape::full(blocks, channels.as_slice());
        let label = format!(in rt.alloc(); "ring of 64, blocks to {blocks}")?;
        show(rt, label.as_str(), shape, &[16; 192], steps, 64)?;
    }
    Ok(())
}

fn refused(rt: &HostRuntime) -> anyhow::Result<()> {
    show(rt, "one size less", DIAMOND, &[1; 3], 2, AMPLE)?;
    show(rt, "size 17", DIAMOND, &[1, 17, 1, 1], 2, AMPLE)?;
    show(rt, "beyond the limit", DIAMOND, &[1; 4], 1_000_001, AMPLE)?;
    show(rt, "list of 3", DIAMOND, &[1; 4], 2, 3)?;
    show(rt, "list of 4", DIAMOND, &[1; 4], 2, 4)?;
    show(rt, "no list", DIAMOND, &[1; 4], 2, 0)?;
    show(
        rt,
        "no list, beyond the limit",
        DIAMOND,
        &[1; 4],
        u32::MAX,
        0,
    )?;
    show(rt, "all three", DIAMOND, &[1, 1, 1, 0], 1_000_001, 3)?;
    let channels = ring(rt.alloc())?;
    let shape = Shape::full(31, channels.as_slice());
    show(rt, "full, list of 63", shape, &[16; 192], 1, 63)
}

fn main(rt: HostRuntime) -> anyhow::Result<()> {
    step_by_step(&rt)?;
    small(&rt)?;
    full(&rt)?;
    refused(&rt)
}
