// Long runs, by the calls of a run alone.
use crate::marks::mixed;
use checking::check;
use cores::SumSet;
use drafts::{Shape, netlist_of};
use rating::rate;
use run::Run;
use std::alloc::Global;

// How many steps were accepted, the firings of the first and the last module, and a sum of the item table.
#[derive(Clone, Copy, Default)]
pub struct Stand {
    pub steps: usize,
    pub first: u32,
    pub last: u32,
    pub table: u32,
}

// Primes a run and makes so many free steps, and counts those that are accepted.
fn stepped(run: &mut Run<SumSet>, table: &mut [u32], steps: u32) -> usize {
    let _ = run.prime(table);
    (0..steps).filter(|_| run.step(table).is_ok()).count()
}

// So many free steps of a netlist under a sizing, over the sum set.
pub fn long(heap: Global, shape: Shape<'_>, sizing: &[u8], steps: u32) -> anyhow::Result<Stand> {
    let file = shape.file(heap)?;
    let Ok(netlist) = netlist_of(heap, file.as_slice()) else {
        return Ok(Stand::default());
    };
    let Ok(checked) = check(&netlist) else {
        return Ok(Stand::default());
    };
    let mut cycle = [0; 64];
    let mut potentials = [0; 64];
    let Ok(rating) = rate(checked, sizing, &mut cycle, &mut potentials) else {
        return Ok(Stand::default());
    };
    let mut table = [7; 3264];
    let mut run = Run::new(rating, SumSet::new());
    let steps = stepped(&mut run, &mut table, steps);
    let first = run.firings(1).unwrap_or(0);
    let last = run.firings(shape.modules).unwrap_or(0);
    let _set = run.end();
    Ok(Stand {
        steps,
        first,
        last,
        table: mixed(&table),
    })
}
