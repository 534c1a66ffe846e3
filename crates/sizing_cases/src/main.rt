//! Sizes small and full netlists, and prints what becomes of each. What it has to print is worked out by tools/sizing_cases.py, a model
//! of its own. Which of several smallest sizings is found is open, so a sizing is tested here, and printed only where it is the only one.
#![tactic(auto)]

mod cases;
mod hard;
mod outcome;

use crate::cases::{
    ALONE_CASES, Case, DIAMOND_CASES, REFUSED_CAPS, REFUSED_SIZES, REFUSED_TARGETS, ROUND_CASES,
    Shown, TEN_CASES,
};
use crate::hard::{PETERSEN, cover, reconvergent};
use crate::outcome::outcome;
use anyhow::Context;
use drafts::{ALONE, DIAMOND, Draft, ROUND, Shape, TEN, chain, line, ring};

// Prints what becomes of each request for a netlist file.
fn show_file(rt: &HostRuntime, file: &[u8], cases: &[Case<'_>]) -> anyhow::Result<()> {
    for case in cases {
        let text = line(rt.alloc(), outcome(rt.alloc(), file, *case))?;
        println!(rt; "{}: {text}", case.label)?;
    }
    Ok(())
}

fn show(rt: &HostRuntime, shape: Shape<'_>, cases: &[Case<'_>]) -> anyhow::Result<()> {
    let file = shape.file(rt.alloc())?;
    show_file(rt, file.as_slice(), cases)
}

const ONES: [u8; 192] = [1; 192];

const TWOS: [u8; 192] = [2; 192];

const SIXTEENS: [u8; 192] = [16; 192];

// All of 192 queues may be deepened; only those beside the relay stations help.
fn chains(rt: &HostRuntime) -> anyhow::Result<()> {
    let channels = chain(rt.alloc())?;
    let shape = Shape::full(62, channels.as_slice());
    let mut last = SIXTEENS;
    last[191] = 1;
    for (label, allowance, present, shown) in [
        ("chain, queue 1 at the end", 8, &last, Shown::Queues),
        (
            "chain, queue 1 at the end, at most 1",
            1,
            &last,
            Shown::Holding,
        ),
        ("chain of queues 1, at most 8", 8, &ONES, Shown::Queues),
        ("chain of queues 1, at most 7", 7, &ONES, Shown::Holding),
    ] {
        let case = Case {
            label,
            target: (1, 1),
            caps: &SIXTEENS,
            allowance,
            present,
            shown,
        };
        show(rt, shape, &[case])?;
    }
    Ok(())
}

// The rate of a ring of all modules is that of its blocks.
fn rings(rt: &HostRuntime) -> anyhow::Result<()> {
    let channels = ring(rt.alloc())?;
    for (label, blocks, target) in [
        ("ring of 64, blocks to 1, 1/64", 1, (1, 64)),
        ("ring of 64, blocks to 1, 1/63", 1, (1, 63)),
        ("ring of 64, blocks to 63, 63/64", 63, (63, 64)),
    ] {
        let case = Case {
            label,
            target,
            caps: &SIXTEENS,
            allowance: 8,
            present: &SIXTEENS,
            shown: Shown::Holding,
        };
        show(rt, Shape::full(blocks, channels.as_slice()), &[case])?;
    }
    Ok(())
}

// A full ring of which one queue is two slots short, or the last cap is below its queue.
fn full_ring(rt: &HostRuntime) -> anyhow::Result<()> {
    let channels = ring(rt.alloc())?;
    let mut short = SIXTEENS;
    short[93] = 14;
    let mut caps = SIXTEENS;
    caps[191] = 15;
    let ample = Case {
        label: "ring of 64, queue 14",
        target: (31, 64),
        caps: &SIXTEENS,
        allowance: 8,
        present: &short,
        shown: Shown::Queues,
    };
    let scarce = Case {
        label: "ring of 64, queue 14, at most 1",
        allowance: 1,
        shown: Shown::Holding,
        ..ample
    };
    let capped = Case {
        label: "ring of 64, last cap 15",
        caps: &caps,
        present: &SIXTEENS,
        shown: Shown::Holding,
        ..ample
    };
    show(
        rt,
        Shape::full(31, channels.as_slice()),
        &[ample, scarce, capped],
    )
}

// A request for a draft whose queues are all 1.
fn show_draft(
    rt: &HostRuntime,
    label: &str,
    draft: &Draft,
    target: (u32, u32),
    caps: &[u8; 192],
    allowance: usize,
) -> anyhow::Result<()> {
    let file = draft.file(rt.alloc())?;
    let channels = draft.channels();
    let case = Case {
        label,
        target,
        caps: caps.get(0..channels).context("more than 192 channels")?,
        allowance,
        present: ONES.get(0..channels).context("more than 192 channels")?,
        shown: Shown::Holding,
    };
    show_file(rt, file.as_slice(), &[case])
}

fn pairs(rt: &HostRuntime) -> anyhow::Result<()> {
    for (count, blocks, relays) in [
        (4, 10, 3),
        (7, 6, 2),
        (9, 5, 1),
        (2, 10, 3),
        (4, 6, 2),
        (8, 5, 1),
    ] {
        let draft = reconvergent(rt.alloc(), count, blocks, relays)?;
        let label = format!(in rt.alloc();
            "{count} pairs of {blocks} blocks and {relays} relay stations"
        )?;
        show_draft(rt, label.as_str(), &draft, (1, 1), &SIXTEENS, 8)?;
    }
    Ok(())
}

fn covers(rt: &HostRuntime) -> anyhow::Result<()> {
    let draft = cover(rt.alloc(), 10, &PETERSEN)?;
    for (label, target, caps, allowance) in [
        ("Petersen, at most 8, cap 16", (5, 6), &SIXTEENS, 8),
        ("Petersen, at most 6, cap 2", (5, 6), &TWOS, 6),
        ("Petersen, at most 5, cap 16", (5, 6), &SIXTEENS, 5),
        ("Petersen, 1/1", (1, 1), &SIXTEENS, 8),
    ] {
        show_draft(rt, label, &draft, target, caps, allowance)?;
    }
    Ok(())
}

// The netlist with two ways, and what is refused of it.
fn diamond(rt: &HostRuntime) -> anyhow::Result<()> {
    show(rt, DIAMOND, &DIAMOND_CASES)?;
    show(rt, DIAMOND, &REFUSED_TARGETS)?;
    show(rt, DIAMOND, &REFUSED_SIZES)?;
    show(rt, DIAMOND, &REFUSED_CAPS)
}

fn small(rt: &HostRuntime) -> anyhow::Result<()> {
    show(rt, ROUND, &ROUND_CASES)?;
    show(rt, ALONE, &ALONE_CASES)?;
    show(rt, TEN, &TEN_CASES)
}

fn main(rt: HostRuntime) -> anyhow::Result<()> {
    diamond(&rt)?;
    small(&rt)?;
    chains(&rt)?;
    rings(&rt)?;
    full_ring(&rt)?;
    pairs(&rt)?;
    covers(&rt)
}
