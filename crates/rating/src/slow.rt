ghost use Rattle.std.specs.Prelude.{◌≡◌, ◌≤◌, length, take, MatchOption};
ghost use Rattle.marked.specs.Answers.{Found};
ghost use Rattle.marked.specs.Graphs.{Reaches, tokens_on};
ghost use Rattle.netlist.specs.Holds.{modules};
ghost use Rattle.rating.specs.Extended.{graph_of};

use crate::graph::{NO_PLACES, extended_in};
use crate::sized::SizedNetlist;
use marked::{MODULES, Target, tokens_on};

/// A slow cycle: how many places it has, and how many tokens they hold.
#[derive(Clone, Copy)]
pub struct SlowCycle {
    pub length: usize,
    pub tokens: u32,
}

/// Looks for a cycle of a netlist's extended graph that is slow for a target A/B: fewer than A tokens to B places. One call decides
/// a target, where a rate takes several. `None`: there is none. `Some(length)`: the first entries of `cycle`, so many, are the
/// indices from 0 of the places of one.
pub fn slow_cycle(chip: SizedNetlist, target: Target, cycle: &mut [u16]) -> Option<usize>
    requires { modules chip.netlist.now ≤ length cycle.old }
    ensures { let n = modules chip.entry.netlist.now in
        let graph = graph_of chip.entry.netlist.now chip.entry.sizing.now in
        MatchOption result (Reaches target.a target.b graph × (cycle.new ≡ cycle.old)) (Found n target.a target.b graph cycle.old cycle.new) }
{
    slow_cycle_with_tokens(chip, target, cycle).map(|slow| slow.length)
}

/// Looks for a slow cycle as `slow_cycle` does, and says with its length how many tokens its places hold.
pub fn slow_cycle_with_tokens(
    chip: SizedNetlist,
    target: Target,
    cycle: &mut [u16],
) -> Option<SlowCycle>
    requires { modules chip.netlist.now ≤ length cycle.old }
    ensures { let n = modules chip.entry.netlist.now in
        let graph = graph_of chip.entry.netlist.now chip.entry.sizing.now in
        MatchOption result (Reaches target.a target.b graph × (cycle.new ≡ cycle.old)) (λ s. Found n target.a target.b graph cycle.old cycle.new s.length × (s.tokens ≡ tokens_on graph (take s.length cycle.new))) }
{
    // Scratch is fixed arrays, so that a rating cannot fail for memory.
    let mut places = NO_PLACES;
    let graph = extended_in(chip, &mut places);
    let mut potentials = [0; MODULES];
    let length = marked::slow_cycle(graph, target, &mut potentials, cycle)?;
    let tokens = tokens_on(graph, &cycle[0..length]);
    Some(SlowCycle { length, tokens })
}
