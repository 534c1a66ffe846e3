//! Reads a netlist file from standard input, and prints its rating under its own sizing, or why it is refused.
#![tactic(auto)]

use report::{LONGEST, rate_text, read_file};

fn main(rt: HostRuntime) -> anyhow::Result<()> {
    let mut buffer = [0; LONGEST];
    let file = read_file(&mut rt.stdin(), &mut buffer)?;
    let text = rate_text(rt.alloc(), file)?;
    print!(rt; "{text}")?;
    Ok(())
}
