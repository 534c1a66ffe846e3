// How a slow cycle is found. Rounds of relaxation go on until one lowers no module: then no cycle
// weighs less than 0, since one that did would offer its own start less than it has. Or they go on until
// a way back closes a cycle, which is a slow one. As many rounds as there are modules always decide it.
ghost use Rattle.std.specs.Prelude.{◌≡◌, ℕ, ◌<◌, ◌≤◌, length};
ghost use Rattle.marked.specs.Answers.{Searched};
ghost use Rattle.marked.specs.Rounds.{arrival, at_start, level, places_of};

use crate::graph::Graph;
use crate::level::Level;
use crate::target::Target;
use crate::trail::{LEVELS, Trail};
use crate::weighed::Weighed;

// Makes the levels one by one, until a round lowers no module or the way back from one closes a cycle.
// `potentials` and `cycle` are no struct: the public calls take the two as slices, so would have to make one.
fn search(
    weighed: Weighed,
    levels: &mut [Level],
    potentials: &mut [i32],
    cycle: &mut [u16],
) -> Option<usize>
    requires long { weighed.graph.modules < length levels.old }
    requires flat { (v : ℕ) → v < 64 → arrival (level levels.old 0) v ≡ at_start }
    requires room { (weighed.graph.modules ≤ length potentials.old) × (weighed.graph.modules ≤ length cycle.old) }
    ensures { Searched weighed.entry.graph.modules weighed.entry.target.a weighed.entry.target.b (places_of weighed.entry) potentials.old potentials.new cycle.old cycle.new result }
{
    let modules = weighed.graph.modules;
    // By number: a round's number says too when it is followed by a way back.
    for k in 0..modules {
        let next = levels[k].next(weighed);
        let Some(top) = next.lowered(modules) else {
            levels[k].settle(modules, potentials);
            return None;
        };
        levels[k + 1] = next;
        // A way back from high up may cost more than a round, so not each round is followed by one.
        if k + 1 < modules && k % 4 != 3 {
            continue;
        }
        if let Some(length) = Trail::walk_back(weighed, levels, k + 1, top, cycle) {
            return Some(length);
        }
    }
    unreachable()
}

// Searches with so many levels. Small netlists get fewer: to fill 65 in each search took about half of the rating of three modules.
fn search_in<const COUNT: usize>(
    weighed: Weighed,
    potentials: &mut [i32],
    cycle: &mut [u16],
) -> Option<usize>
    requires long { weighed.graph.modules < COUNT }
    requires few { COUNT ≤ 65 }
    requires room { (weighed.graph.modules ≤ length potentials.old) × (weighed.graph.modules ≤ length cycle.old) }
    ensures { Searched weighed.entry.graph.modules weighed.entry.target.a weighed.entry.target.b (places_of weighed.entry) potentials.old potentials.new cycle.old cycle.new result }
{
    // An array: a rating may not fail for memory.
    let mut levels = [Level::START; COUNT];
    search(weighed, &mut levels, potentials, cycle)
}

/// Looks for a slow cycle: one whose mean is below the target. `None`: there is none, and
/// `potentials` has the potential of each module at the target. `Some(length)`: the first `length` entries
/// of `cycle` are one; it passes no module twice, and starts at the lowest that it passes. What is not
/// the answer's stays as it was.
pub fn slow_cycle(
    graph: Graph,
    target: Target,
    potentials: &mut [i32],
    cycle: &mut [u16],
) -> Option<usize>
    requires room { (graph.modules ≤ length potentials.old) × (graph.modules ≤ length cycle.old) }
    ensures { Searched graph.entry.modules target.a target.b graph.entry.places.now potentials.old potentials.new cycle.old cycle.new result }
{
    let weighed = Weighed { graph, target };
    match graph.modules {
        0..16 => search_in::<16>(weighed, potentials, cycle),
        16..32 => search_in::<32>(weighed, potentials, cycle),
        _ => search_in::<LEVELS>(weighed, potentials, cycle),
    }
}
