// A line for each refusal of each number.
use crate::asked::{Aim, checked, foretold, played, rated, sized};
use crate::nets::{APART, LOOSE, RINGED, netlist_of, netlist_of_shape};
use anyhow::{Context, anyhow};
use drafts::{SAMPLE, Shape, VIDEO, line};
use netlist::{Netlist, ReadError, Refusal, read};
use play::{Exchange, Request};

fn show(rt: &HostRuntime, label: &str, answer: Result<(), Refusal>) -> anyhow::Result<()> {
    show_read(rt, label, answer.map_err(ReadError::Refused))
}

fn show_read(rt: &HostRuntime, label: &str, answer: Result<(), ReadError>) -> anyhow::Result<()> {
    let accepted = String::from_str(rt.alloc(), "accepted")?;
    let text = line(rt.alloc(), answer.map(|()| accepted))?;
    println!(rt; "{label}: {text}")?;
    Ok(())
}

// Reads a file into a table of sizes.
fn show_file(rt: &HostRuntime, label: &str, file: &[u8], table: &mut [u8]) -> anyhow::Result<()> {
    let mut netlist = Netlist::new(rt.alloc())?;
    show_read(rt, label, read(rt.alloc(), file, &mut netlist, table))
}

fn of_files(rt: &HostRuntime) -> anyhow::Result<()> {
    let mut table = [0; 192];
    show_file(rt, "F cut to 24 bytes", &SAMPLE[0..24], &mut table)?;
    let mut counted = SAMPLE;
    counted[13] = 193;
    show_file(rt, "F with 193 channels", &counted, &mut table)?;
    let mut numbered = SAMPLE;
    numbered[14] = 4;
    show_file(rt, "F with byte 14 set to 4", &numbered, &mut table)?;
    let mut longer = SAMPLE.to_vec(rt.alloc())?;
    longer.push(1)?;
    show_file(rt, "F with a byte more", longer.as_slice(), &mut table)
}

fn of_checks(rt: &HostRuntime) -> anyhow::Result<()> {
    let cases: [(&str, Shape<'_>); 3] = [
        ("a relay station without an output", LOOSE),
        ("two blocks without a channel", APART),
        ("a ring of relay stations", RINGED),
    ];
    for (label, shape) in cases {
        let netlist = netlist_of_shape(rt.alloc(), shape)?;
        show(rt, label, checked(&netlist))?;
    }
    Ok(())
}

fn show_size(
    rt: &HostRuntime,
    label: &str,
    target: (u32, u32),
    caps: &[u8],
    allowance: usize,
) -> anyhow::Result<()> {
    let netlist = netlist_of_shape(rt.alloc(), VIDEO)?;
    let aim = Aim {
        target,
        caps,
        allowance,
    };
    show(rt, label, sized(&netlist, aim, &mut [1; 21]).map(|_| ()))
}

fn of_sizes(rt: &HostRuntime) -> anyhow::Result<()> {
    let mut caps = [3; 21];
    show_size(rt, "video decoder, 65/65", (65, 65), &caps, 8)?;
    show_size(rt, "video decoder, 20 caps", (4, 5), &[3; 20], 8)?;
    caps[20] = 17;
    show_size(rt, "video decoder, last cap 17", (4, 5), &caps, 8)?;
    caps[20] = 3;
    show_size(rt, "video decoder, at most 9", (4, 5), &caps, 9)?;
    show_size(rt, "video decoder, at most 1", (4, 5), &caps, 1)
}

// Makes requests of a run of the sample, with a table of six items, and shows the answer to the last.
fn show_run(rt: &HostRuntime, label: &str, requests: &[Request]) -> anyhow::Result<()> {
    let netlist = netlist_of(rt.alloc(), &SAMPLE)?;
    let mut exchanges: Vec<Exchange<u32>> = requests
        .iter()
        .map(|request| Exchange::new(*request))
        .collect(rt.alloc())?;
    let mut table: [u32; 6] = [0; 6];
    show_answer(
        rt,
        label,
        played(&netlist, &[1; 3], exchanges.as_mut_slice(), &mut table),
        exchanges.as_slice(),
    )
}

fn show_answer(
    rt: &HostRuntime,
    label: &str,
    made: Result<(), Refusal>,
    exchanges: &[Exchange<u32>],
) -> anyhow::Result<()> {
    made.map_err(|_| anyhow!("a run that is not made"))?;
    let exchange = exchanges.last().context("no request")?;
    match exchange.answer {
        Some(Err(refusal)) => show(rt, label, Err(refusal)),
        _ => show(rt, label, Ok(())),
    }
}

const PRIME: Request = Request::Prime { lent: 6 };

fn out_of_turn(rt: &HostRuntime) -> anyhow::Result<()> {
    show_run(rt, "hold before prime", &[Request::Hold(1)])?;
    show_run(rt, "step before prime", &[Request::Step { lent: 6 }])?;
    show_run(
        rt,
        "front before prime",
        &[Request::Front {
            channel: 1,
            lent: 6,
        }],
    )?;
    show_run(rt, "a second prime", &[PRIME, PRIME])
}

fn out_of_range(rt: &HostRuntime) -> anyhow::Result<()> {
    show_run(rt, "hold of module 4", &[PRIME, Request::Hold(4)])?;
    show_run(rt, "firings of module 0", &[Request::Firings(0)])?;
    show_run(rt, "fill of channel 4", &[Request::Fill(4)])?;
    show_run(
        rt,
        "front of channel 0",
        &[
            PRIME,
            Request::Front {
                channel: 0,
                lent: 6,
            },
        ],
    )
}

fn items_too_short(rt: &HostRuntime) -> anyhow::Result<()> {
    show_run(rt, "prime with 5 items", &[Request::Prime { lent: 5 }])?;
    show_run(rt, "step with 5 items", &[PRIME, Request::Step { lent: 5 }])?;
    show_run(
        rt,
        "front with no items",
        &[
            PRIME,
            Request::Front {
                channel: 3,
                lent: 0,
            },
        ],
    )
}

fn beyond_limit(rt: &HostRuntime) -> anyhow::Result<()> {
    let netlist = netlist_of_shape(rt.alloc(), VIDEO)?;
    let mut firings = [0; 64];
    show(
        rt,
        "video decoder, 1000001 steps",
        foretold(&netlist, &[1; 21], 1_000_001, &mut firings),
    )
}

fn lists_too_short(rt: &HostRuntime) -> anyhow::Result<()> {
    show_file(rt, "F into 2 sizes", &SAMPLE, &mut [0; 2])?;
    let netlist = netlist_of_shape(rt.alloc(), VIDEO)?;
    let answer = rated(&netlist, &[1; 21], &mut [0; 16], &mut [0; 17]);
    show(rt, "video decoder, cycle of 16", answer.map(|_| ()))?;
    show(
        rt,
        "video decoder, firings of 16",
        foretold(&netlist, &[1; 21], 10, &mut [0; 16]),
    )
}

// In rising order of their numbers.
pub fn show_all(rt: &HostRuntime) -> anyhow::Result<()> {
    of_files(rt)?;
    of_checks(rt)?;
    of_sizes(rt)?;
    out_of_turn(rt)?;
    out_of_range(rt)?;
    items_too_short(rt)?;
    beyond_limit(rt)?;
    lists_too_short(rt)
}
