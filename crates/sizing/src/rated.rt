ghost use Rattle.std.specs.Prelude.{◌≤◌, length, MatchOption};
ghost use Rattle.marked.specs.Answers.{Found};
ghost use Rattle.netlist.specs.Holds.{modules};
ghost use Rattle.rating.specs.Extended.{graph_of};
ghost use Rattle.sizing.specs.Candidates.{Reaching};

use marked::Target;
use rating::{SizedNetlist, rated_cycle};

// Rates the table. `None`: its rate P/L is A/B at least, P * B being at least A * L. `Some(length)`: the cycle that shows the rate, in
// the front of `cycle`, is slow for the target.
pub(crate) fn slow_when_rated(
    chip: SizedNetlist,
    target: Target,
    cycle: &mut [u16],
) -> Option<usize>
    requires { modules chip.netlist.now ≤ length cycle.old }
    ensures { MatchOption result (Reaching chip.entry.netlist.now target.a target.b chip.entry.sizing.now) (Found (modules chip.entry.netlist.now) target.a target.b (graph_of chip.entry.netlist.now chip.entry.sizing.now) cycle.old cycle.new) }
{
    let rated = rated_cycle(chip, cycle);
    let (p, l) = rated.rate;
    let (a, b) = target.fraction();
    // By cross products: whole numbers, and no quotient is rounded.
    if p * b >= a * l {
        return None;
    }
    Some(rated.length)
}
