// What the public calls answer of a netlist that is checked first.
use checking::check;
use cores::SumSet;
use forecasting::forecast;
use netlist::{Netlist, ReadError, Refusal};
use play::{Exchange, play};
use rating::rate;
use sizing::size;
use std::alloc::Global;

// A request for a sizing.
#[derive(Clone, Copy)]
pub struct Aim<'a> {
    pub target: (u32, u32),
    pub caps: &'a [u8],
    pub allowance: usize,
}

pub fn checked(netlist: &Netlist) -> Result<(), Refusal> {
    check(netlist)?;
    Ok(())
}

pub fn sized(netlist: &Netlist, aim: Aim<'_>, table: &mut [u8]) -> Result<usize, Refusal> {
    size(check(netlist)?, aim.target, aim.caps, aim.allowance, table)
}

pub fn rated(
    netlist: &Netlist,
    sizing: &[u8],
    cycle: &mut [u16],
    potentials: &mut [i32],
) -> Result<(u32, u32), Refusal> {
    let rating = rate(check(netlist)?, sizing, cycle, potentials)?;
    Ok(rating.rate())
}

pub fn rated_text(heap: Global, netlist: &Netlist, sizing: &[u8]) -> Result<String, ReadError> {
    let (p, l) = rated(netlist, sizing, &mut [0; 64], &mut [0; 64])?;
    Ok(format!(in heap; "rate {p}/{l}")?)
}

pub fn foretold(
    netlist: &Netlist,
    sizing: &[u8],
    steps: u32,
    firings: &mut [u32],
) -> Result<(), Refusal> {
    forecast(check(netlist)?, sizing, steps, firings)
}

// Plays a list of exchanges over the sum set.
pub fn played(
    netlist: &Netlist,
    sizing: &[u8],
    exchanges: &mut [Exchange<u32>],
    table: &mut [u32],
) -> Result<(), Refusal> {
    let mut cycle = [0; 64];
    let mut potentials = [0; 64];
    let rating = rate(check(netlist)?, sizing, &mut cycle, &mut potentials)?;
    play(rating, SumSet::new(), exchanges, table);
    Ok(())
}
