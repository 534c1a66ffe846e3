//! Plays lists of calls on small, full and random netlists over both sets of cores, and prints what becomes of each. What it has to print
//! is worked out by tools/run_cases.py, a model of its own.
#![tactic(auto)]

mod case;
mod long_run;
mod marks;
mod random;

use crate::case::Case;
use crate::long_run::long;
use crate::marks::Mark;
use crate::random::Random;
use cores::{OriginSet, SumSet};
use drafts::{ALONE, DIAMOND, ITSELF, PAIR, Shape, TRIANGLE, chain};
use play::{Exchange, Reply, Request};
use std::alloc::{AllocError, Global};

const ALL: usize = usize::MAX;

const PRIME: Request = Request::Prime { lent: ALL };

const STEP: Request = Request::Step { lent: ALL };

// Prints all that becomes of a case, over both sets of cores.
fn show(rt: &HostRuntime, label: &str, case: Case<'_, '_, '_>) -> anyhow::Result<()> {
    let sums = case.outcome(rt.alloc(), SumSet::new())?.text(rt.alloc())?;
    println!(rt; "{label}, sums:{sums}")?;
    let origins = case
        .outcome(rt.alloc(), OriginSet::new())?
        .text(rt.alloc())?;
    println!(rt; "{label}, origins:{origins}")?;
    Ok(())
}

// Prints only sums of what becomes of a case.
fn show_sums(rt: &HostRuntime, label: &str, case: Case<'_, '_, '_>) -> anyhow::Result<()> {
    let (a, b, c) = case.outcome(rt.alloc(), SumSet::new())?.sums();
    let (d, e, f) = case.outcome(rt.alloc(), OriginSet::new())?.sums();
    println!(rt; "{label}: {a} {b} {c}, {d} {e} {f}")?;
    Ok(())
}

fn front(channel: u8) -> Request {
    Request::Front { channel, lent: ALL }
}

fn sample(rt: &HostRuntime) -> anyhow::Result<()> {
    let case = Case {
        shape: TRIANGLE,
        sizing: &[1; 3],
        entries: 8,
        requests: &[
            PRIME,
            STEP,
            STEP,
            STEP,
            front(1),
            front(2),
            front(3),
            Request::Firings(1),
            Request::Firings(2),
            Request::Firings(3),
            Request::Fill(1),
            Request::Fill(2),
            Request::Fill(3),
        ],
    };
    show(rt, "F after 3 steps", case)
}

const FIRINGS: [Request; 4] = [
    Request::Firings(1),
    Request::Firings(2),
    Request::Firings(3),
    Request::Firings(4),
];

// The firings of each module of D at first and after each step. Module 1 may be held in the first step.
fn watched(heap: Global, held: bool, steps: usize) -> Result<Vec<Request>, AllocError> {
    let mut requests = Vec::new(heap);
    requests.push(PRIME)?;
    if held {
        requests.push(Request::Hold(1))?;
    }
    requests.extend_from_slice(&FIRINGS)?;
    for _ in 1..steps {
        requests.push(STEP)?;
        requests.extend_from_slice(&FIRINGS)?;
    }
    Ok(requests)
}

// How many items a module has produced each time that it was asked: its firings, and so many at first.
fn add_produced(
    text: &mut String,
    exchanges: &[Exchange<u32>],
    module: u8,
    first: u32,
) -> Result<(), AllocError> {
    for exchange in exchanges {
        if let Some(Ok(Reply::Number(n))) = exchange.answer {
            if exchange.request == Request::Firings(module) {
                write!(text, " {}", n.wrapping_add(first))?;
            }
        }
    }
    Ok(())
}

// Prints how many items each module of D has produced, of which each block has 1 at first.
fn produced(
    rt: &HostRuntime,
    label: &str,
    sizing: &[u8],
    held: bool,
    steps: usize,
) -> anyhow::Result<()> {
    let requests = watched(rt.alloc(), held, steps)?;
    let case = Case {
        shape: DIAMOND,
        sizing,
        entries: 9,
        requests: requests.as_slice(),
    };
    let outcome = case.outcome(rt.alloc(), SumSet::new())?;
    let exchanges = outcome.exchanges.as_slice();
    let mut text = String::new(rt.alloc());
    for block in 1..=3 {
        add_produced(&mut text, exchanges, block, 1)?;
        text.push_str(" /")?;
    }
    add_produced(&mut text, exchanges, 4, 0)?;
    println!(rt; "{label}:{text}")?;
    Ok(())
}

fn traces(rt: &HostRuntime) -> anyhow::Result<()> {
    produced(rt, "D", &[1; 4], false, 6)?;
    produced(rt, "D, 1 held first", &[1; 4], true, 5)?;
    produced(rt, "D, queue 2 on channel 2", &[1, 2, 1, 1], false, 9)
}

// Eight steps, and then all questions about two modules and three channels, of which some may not be there.
const EIGHT: [Request; 17] = [
    PRIME,
    STEP,
    STEP,
    STEP,
    STEP,
    STEP,
    STEP,
    STEP,
    STEP,
    Request::Firings(1),
    Request::Firings(2),
    Request::Fill(1),
    Request::Fill(2),
    Request::Fill(3),
    Request::Front {
        channel: 1,
        lent: ALL,
    },
    Request::Front {
        channel: 2,
        lent: ALL,
    },
    Request::Front {
        channel: 3,
        lent: ALL,
    },
];

fn eight(
    rt: &HostRuntime,
    label: &str,
    shape: Shape<'_>,
    sizing: &[u8],
    entries: u32,
) -> anyhow::Result<()> {
    let case = Case {
        shape,
        sizing,
        entries,
        requests: &EIGHT,
    };
    show(rt, label, case)
}

fn small(rt: &HostRuntime) -> anyhow::Result<()> {
    eight(rt, "one block, no table", ALONE, &[], 0)?;
    eight(rt, "one block to itself", ITSELF, &[1], 2)?;
    let twice = Shape {
        channels: &[(1, 1), (1, 1)],
        ..ALONE
    };
    eight(rt, "one block twice to itself", twice, &[1, 3], 6)?;
    eight(rt, "without inputs to without outputs", PAIR, &[2], 4)?;
    let parallel = Shape {
        channels: &[(1, 2), (1, 2), (1, 2)],
        ..PAIR
    };
    eight(rt, "three side by side", parallel, &[1, 2, 16], 22)?;
    let around = Shape {
        channels: &[(1, 2), (2, 1), (2, 2)],
        ..PAIR
    };
    eight(rt, "there and back", around, &[1, 1, 1], 6)?;
    let relayed = Shape {
        modules: 2,
        blocks: 1,
        channels: &[(1, 2), (2, 1)],
    };
    eight(rt, "around by a relay station", relayed, &[1, 2], 5)
}

// Every refusal, where a later one would fit as well; refused calls leave all as it was.
fn refused(rt: &HostRuntime) -> anyhow::Result<()> {
    let none = Request::Step { lent: 0 };
    let requests = [
        Request::Hold(0),
        Request::Hold(1),
        none,
        STEP,
        Request::Front {
            channel: 0,
            lent: 0,
        },
        front(1),
        Request::Firings(0),
        Request::Firings(4),
        Request::Firings(5),
        Request::Fill(0),
        Request::Fill(4),
        Request::Fill(5),
        Request::Prime { lent: 7 },
        Request::Hold(1),
        Request::Prime { lent: 8 },
        Request::Prime { lent: 0 },
        PRIME,
        Request::Hold(0),
        Request::Hold(5),
        Request::Hold(255),
        Request::Front {
            channel: 0,
            lent: 0,
        },
        Request::Front {
            channel: 5,
            lent: 0,
        },
        Request::Front {
            channel: 1,
            lent: 7,
        },
        Request::Front {
            channel: 1,
            lent: 8,
        },
        Request::Hold(1),
        none,
        Request::Step { lent: 7 },
        Request::Step { lent: 8 },
        Request::Firings(1),
        Request::Firings(2),
        STEP,
        Request::Firings(1),
        Request::Firings(2),
    ];
    let case = Case {
        shape: DIAMOND,
        sizing: &[1; 4],
        entries: 9,
        requests: &requests,
    };
    show(rt, "refusals", case)?;
    show(rt, "a table too short", Case { entries: 7, ..case })
}

// The full tables: 192 channels of queue 16 but for the last, which sets the rate.
fn full(rt: &HostRuntime) -> anyhow::Result<()> {
    let channels = chain(rt.alloc())?;
    let shape = Shape::full(62, channels.as_slice());
    let mut requests = Vec::new(rt.alloc());
    requests.push(PRIME)?;
    requests.extend_from_slice(&[STEP; 200])?;
    for channel in 1..=192 {
        requests.extend_from_slice(&[Request::Fill(channel), front(channel)])?;
    }
    for last in [1, 2, 16] {
        let mut sizing = [16; 192];
        sizing[191] = last;
        let entries = 3248 + u32::from(last);
        for less in [0, 1] {
            let case = Case {
                shape,
                sizing: &sizing,
                entries: entries - less,
                requests: requests.as_slice(),
            };
            let label = format!(in rt.alloc(); "chain, queue {last} at the end, {less} short")?;
            show_sums(rt, label.as_str(), case)?;
        }
        let stand = long(rt.alloc(), shape, &sizing, 20_000)?;
        println!(rt;
            "chain, queue {last} at the end, long: {} {} {} {}",
            stand.steps, stand.first, stand.last, stand.table
        )?;
    }
    Ok(())
}

fn random_netlists(rt: &HostRuntime) -> anyhow::Result<()> {
    for seed in 0..100 {
        let random = Random::new(rt.alloc(), seed)?;
        let label = format!(in rt.alloc(); "random {seed}")?;
        show_sums(rt, label.as_str(), random.case())?;
    }
    Ok(())
}

fn main(rt: HostRuntime) -> anyhow::Result<()> {
    sample(&rt)?;
    traces(&rt)?;
    small(&rt)?;
    refused(&rt)?;
    full(&rt)?;
    random_netlists(&rt)
}
