// The rate by descending targets. The first target is 1; while a cycle is slow for the target, the
// cycle's mean, which is lower, becomes the target. A target for which none is slow is at most every
// mean, and it is 1 or the mean of the last cycle found: the rate. The targets' denominators are at most
// 64, so two of them differ by 1/4096 at least, and 4096 times the target, rounded down, falls each time.
ghost use Rattle.std.specs.Prelude.{◌≡◌, ℕ, ◌<◌, ◌≤◌, length, slice_index};
ghost use Rattle.marked.specs.Graphs.{tokens_on};
ghost use Rattle.marked.specs.Answers.{Measured};
ghost use Rattle.marked.specs.Rounds.{Reduced};

use crate::graph::Graph;
use crate::place::MODULES;
use crate::slow::slow_cycle;
use crate::target::Target;

/// A rate as a fraction in lowest terms, and the length of the cycle that shows it. The rate is a tuple, since rates are
/// compared by cross products. The length is no `Option`: the first `length` entries of the caller's list are
/// the cycle, and none of them is at rate 1.
#[derive(Clone, Copy)]
pub struct Rated {
    pub rate: (u32, u32),
    pub length: usize,
}

// x/y in lowest terms. Each turn keeps the common divisors of the two numbers, and at the end one of
// them is 0, so that the other is the greatest.
fn lowest_terms(x: u32, y: u32) -> (u32, u32)
    requires { 0 < y }
    ensures { Reduced x y result.0 result.1 }
{
    let mut divisor = x;
    let mut rest = y;
    // A loop: the library has lemmas on greatest common divisors, and no function.
    while rest > 0 {
        let remainder = divisor % rest;
        divisor = rest;
        rest = remainder;
    }
    (x / divisor, y / divisor)
}

// The mean of a slow cycle, in lowest terms.
fn mean(tokens: u32, places: u32) -> Target
    requires some { 0 < places }
    requires few { places ≤ 64 }
    requires proper { tokens ≤ places }
    ensures { Reduced tokens places result.a result.b }
{
    let (a, b) = lowest_terms(tokens, places);
    Target { a, b }
}

/// The tokens that the places of a walk hold, which has no more places than a graph has modules at most.
pub fn tokens_on(graph: Graph, walk: &[u16]) -> u32
    requires inside { (i : ℕ) → i < length walk.now → slice_index walk.now i < length graph.places.now }
    requires short { length walk.now ≤ 64 }
    ensures { result ≡ tokens_on graph.entry.places.now walk.now }
{
    walk.iter()
        .map(|place| graph.places[*place as usize].tokens)
        .sum()
}

/// The rate of a graph: the least of 1 and the means of all cycles, where the mean is the number of
/// tokens over the number of places. Below 1 the first `length` entries of `cycle` are a cycle with that
/// mean; it passes no module twice, and starts at the lowest that it passes. At 1 there are none.
/// `potentials` has the potential of each module at the rate. What is not the answer's stays as it was.
pub fn rate(graph: Graph, potentials: &mut [i32], cycle: &mut [u16]) -> Rated
    requires room { (graph.modules ≤ length potentials.old) × (graph.modules ≤ length cycle.old) }
    ensures { Measured graph.entry.modules graph.entry.places.now result.rate.0 result.rate.1 result.length potentials.old potentials.new cycle.old cycle.new }
{
    // A later cycle may be shorter than an earlier one, so only the last is copied to the caller. An array for the longest:
    // a rating may not fail for memory.
    let mut slowest = [0; MODULES];
    let mut length = 0;
    let mut target = Target::one();
    while let Some(found) = slow_cycle(graph, target, potentials, &mut slowest) {
        let tokens = tokens_on(graph, &slowest[0..found]);
        target = mean(tokens, found as u32);
        length = found;
    }
    cycle[0..length].copy_from_slice(&slowest[0..length]);
    Rated {
        rate: target.fraction(),
        length,
    }
}
