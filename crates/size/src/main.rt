//! Reads a netlist file from standard input, deepens its queues for a target with the fewest added slots, and prints what it added and
//! the rating then, or why it is refused.
#![tactic(auto)]

use anyhow::Context;
use report::{DEEPEST, LONGEST, Request, read_file, size_text};
use std::env;

// A word of the arguments as a number. The tracing program has the same two lines, with its own message; a library for them would be longer.
fn number(word: Option<String>) -> anyhow::Result<u32> {
    let text = word.context("usage: size A B M [CAP]")?;
    Ok(text.as_str().parse::<u32>()?)
}

// The arguments A B M and, if it is there, the cap.
fn request(rt: &HostRuntime) -> anyhow::Result<Request> {
    let mut words = env::args(rt)?;
    let _program = words.next();
    let a = number(words.next())?;
    let b = number(words.next())?;
    let allowance = number(words.next())? as usize;
    let cap = match words.next() {
        Some(text) => text.as_str().parse::<u8>()?,
        None => DEEPEST,
    };
    Ok(Request {
        target: (a, b),
        allowance,
        cap,
    })
}

fn main(rt: HostRuntime) -> anyhow::Result<()> {
    let request = request(&rt)?;
    let mut buffer = [0; LONGEST];
    let file = read_file(&mut rt.stdin(), &mut buffer)?;
    let text = size_text(rt.alloc(), file, request)?;
    print!(rt; "{text}")?;
    Ok(())
}
