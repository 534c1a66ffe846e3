//! Reads a netlist file from standard input, deepens its queues for a target with the fewest added slots, makes a run of it as the
//! arguments ask, and prints what was added, each request with its answer and where the run then stands, or why it is refused.
#![tactic(auto)]

use anyhow::Context;
use report::{DEEPEST, LONGEST, Request, read_file};
use std::env;
use trace_text::{Command, parse, trace_text};

const USAGE: &str =
    "usage: trace A B M [prime | hold V | step [T] | firings V | fill E | front E]..";

// A word of the arguments as a number. The sizing program has the same two lines, with its own message; a library for them would be longer.
fn number(word: Option<String>) -> anyhow::Result<u32> {
    let text = word.context(USAGE)?;
    Ok(text.as_str().parse::<u32>()?)
}

// The arguments: A B M, and the commands.
fn arguments(rt: &HostRuntime) -> anyhow::Result<(Request, Vec<Command>)> {
    let mut words = env::args(rt)?;
    let _program = words.next();
    let a = number(words.next())?;
    let b = number(words.next())?;
    let allowance = number(words.next())? as usize;
    let list: Vec<String> = words.collect(rt.alloc())?;
    let commands = parse(rt.alloc(), list.as_slice())?.context(USAGE)?;
    let request = Request {
        target: (a, b),
        allowance,
        cap: DEEPEST,
    };
    Ok((request, commands))
}

fn main(rt: HostRuntime) -> anyhow::Result<()> {
    let (request, commands) = arguments(&rt)?;
    let mut buffer = [0; LONGEST];
    let file = read_file(&mut rt.stdin(), &mut buffer)?;
    let text = trace_text(rt.alloc(), file, request, commands.as_slice())?;
    print!(rt; "{text}")?;
    Ok(())
}
