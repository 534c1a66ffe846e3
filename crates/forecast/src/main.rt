//! Reads a netlist file from standard input, and prints how often each module will have fired after so many free steps under the
//! file's own sizing, or why it is refused.
#![tactic(auto)]

use anyhow::Context;
use report::{LONGEST, forecast_text, read_file};
use std::env;

fn main(rt: HostRuntime) -> anyhow::Result<()> {
    let mut words = env::args(&rt)?;
    let _program = words.next();
    let word = words.next().context("usage: forecast T")?;
    let steps = word.as_str().parse::<u32>()?;
    let mut buffer = [0; LONGEST];
    let file = read_file(&mut rt.stdin(), &mut buffer)?;
    let text = forecast_text(rt.alloc(), file, steps)?;
    print!(rt; "{text}")?;
    Ok(())
}
