// Cycles that are named by the modules that they pass.
use anyhow::{Context, anyhow};
use marked::{Graph, MODULES, PLACES, Place, rate};
use netlist::Netlist;
use rating::extend::extend;
use std::alloc::{AllocError, Global};

// The place from one module to another, both counted from 1, where only one such place is.
fn place_between(places: &[Place], from: usize, to: usize) -> Option<Place> {
    let mut found = places.iter().filter(|place| place.from.wrapping_add(1) == from
        && place.to.wrapping_add(1) == to);
    match (found.next(), found.next()) {
        (Some(place), None) => Some(*place),
        _ => None,
    }
}

// The places from each module of a walk to the next.
fn places_along(heap: Global, places: &[Place], walk: &[usize]) -> anyhow::Result<Vec<Place>> {
    walk.iter()
        .zip(walk.iter().skip(1))
        .map(|(from, to)| place_between(places, *from, *to).context("no place, or more than one"))
        .try_collect(heap)
}

// The tokens and the number of the places of a cycle, and its mean: the rate of a graph that has no other places.
fn mean_text(heap: Global, cycle: &[Place]) -> Result<String, AllocError> {
    let Some(graph) = Graph::checked(MODULES, cycle) else {
        return format!(in heap; "no graph");
    };
    let tokens = cycle
        .iter()
        .fold(0u32, |sum, place| sum.wrapping_add(place.tokens));
    let rated = rate(graph, &mut [0; MODULES], &mut [0; MODULES]);
    let (p, l) = rated.rate;
    format!(in heap; "{tokens} tokens on {} places, mean {p}/{l}", rated.length)
}

// The same of a walk in the extended graph of a netlist under a sizing.
pub fn cycle_text(
    heap: Global,
    netlist: &Netlist,
    sizing: &[u8],
    walk: &[usize],
) -> anyhow::Result<String> {
    let nowhere = Place {
        from: 0,
        to: 0,
        tokens: 0,
    };
    let mut places = [nowhere; PLACES];
    if sizing.len() != netlist.channels().len() || sizing.len() > 192 {
        return Err(anyhow!("a sizing of another length"));
    }
    let count = extend(netlist, sizing, &mut places);
    let all = places.get(0..count).context("too many places")?;
    let cycle = places_along(heap, all, walk)?;
    Ok(mean_text(heap, cycle.as_slice())?)
}
