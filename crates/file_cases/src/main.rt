//! Reads damaged and full files, and prints what becomes of each. What it has to print is worked out by tools/file_cases.py, a reader
//! of its own.
#![tactic(auto)]

mod files;
mod outcome;

use crate::files::full;
use crate::outcome::{outcome, table_outcome};
use drafts::SAMPLE;

// Every cut of the sample, and one byte more.
fn cuts(rt: &HostRuntime) -> anyhow::Result<()> {
    for length in 0..=SAMPLE.len() {
        let text = outcome(rt.alloc(), &SAMPLE[..length])?;
        println!(rt; "cut to {length}: {text}")?;
    }
    let mut longer = SAMPLE.to_vec(rt.alloc())?;
    longer.push(0)?;
    let text = outcome(rt.alloc(), longer.as_slice())?;
    println!(rt; "one byte more: {text}")?;
    Ok(())
}

// Every byte of the sample, set to values at the ends of the ranges.
fn changes(rt: &HostRuntime) -> anyhow::Result<()> {
    // By index, as each turn writes that entry of a copy of the whole.
    for place in 0..SAMPLE.len() {
        for value in [0, 1, 4, 64, 65, 127, 255] {
            let mut file = SAMPLE;
            file[place] = value;
            let text = outcome(rt.alloc(), &file)?;
            println!(rt; "byte {place} set to {value}: {text}")?;
        }
    }
    Ok(())
}

// A file of so many records, with some bytes behind it.
fn tables(
    rt: &HostRuntime,
    label: &str,
    counts: (u8, u8, u8),
    behind: &[u8],
) -> anyhow::Result<()> {
    let mut file = full(rt.alloc(), counts)?;
    file.extend_from_slice(behind)?;
    let text = outcome(rt.alloc(), file.as_slice())?;
    println!(rt; "{label}: {text}")?;
    Ok(())
}

fn all_tables(rt: &HostRuntime) -> anyhow::Result<()> {
    tables(rt, "full tables", (64, 192, 192), &[])?;
    tables(rt, "full tables without sizes", (64, 192, 0), &[])?;
    tables(rt, "full tables and a byte", (64, 192, 192), &[1])?;
    tables(rt, "65 modules", (65, 192, 192), &[])?;
    tables(rt, "193 channels", (64, 193, 192), &[])?;
    tables(rt, "191 sizes", (64, 192, 191), &[])?;
    tables(rt, "193 sizes", (64, 192, 193), &[])?;
    let mut file = full(rt.alloc(), (64, 192, 0))?;
    file.truncate(file.len().saturating_sub(2));
    file.extend_from_slice(&[1, 0])?;
    let text = outcome(rt.alloc(), file.as_slice())?;
    println!(rt; "256 sizes: {text}")?;
    tables(rt, "no channel", (64, 0, 0), &[])?;
    tables(rt, "a size without channels", (64, 0, 1), &[])
}

// Prints what becomes of a file that is read into a table.
fn show_table(rt: &HostRuntime, label: &str, file: &[u8], sizing: &mut [u8]) -> anyhow::Result<()> {
    let text = table_outcome(rt.alloc(), file, sizing)?;
    println!(rt; "{label}: {text}")?;
    Ok(())
}

// Tables that are too short, or longer than need be.
fn rooms(rt: &HostRuntime) -> anyhow::Result<()> {
    show_table(rt, "table of 2", &SAMPLE, &mut [9; 2])?;
    show_table(rt, "table of 0, cut to 24", &SAMPLE[..24], &mut [])?;
    show_table(rt, "table of 5", &SAMPLE, &mut [9; 5])
}

fn main(rt: HostRuntime) -> anyhow::Result<()> {
    cuts(&rt)?;
    changes(&rt)?;
    all_tables(&rt)?;
    rooms(&rt)
}
