//! What the calls of a run come to, counted from the netlist and the sizing alone, and the bounds that these counts keep to.
//! Nothing here runs: each function stands for theorems, which its contract states.
#![tactic(auto)]

ghost use Rattle.calls.specs.Laws.{KeepsItsRate, KeepsTargets, MissesTargets, NoSetback, NotBehind, OriginsAreMet};

/// In a checked netlist every channel's items come from one block, through relay stations alone.
pub fn channels_have_origins()
    ensures { OriginsAreMet }
{}

/// How the firings after any list of calls are bound, the refused calls among them.
///
/// `setback`: t steps of which h are held lead at least as far as t - h free ones, and (`behind`) as any other calls with at most
/// t - h steps. `rate`: every module stays near the rate. `reached`: it keeps up with each target that the rate is up to. `missed`: a
/// sizing that does not reach a target falls behind it, and that shows from a known step on.
pub fn calls_keep_their_bounds()
    ensures setback { NoSetback }
    ensures behind { NotBehind }
    ensures rate { KeepsItsRate }
    ensures reached { KeepsTargets }
    ensures missed { MissesTargets }
{}
