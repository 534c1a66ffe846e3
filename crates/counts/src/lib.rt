//! Firing counts of a netlist under a sizing. Nothing here runs: each function stands for theorems, which its contract states.
#![tactic(auto)]

ghost use Rattle.std.specs.Prelude.{◌≡◌, ℕ, ◌<◌, ◌≤◌, true};
ghost use Rattle.counts.specs.Nets.{Net};
ghost use Rattle.counts.specs.Steps.{fill, is_ready};
ghost use Rattle.counts.specs.Laws.{FreelyAlike, InOnePiece, InOnePieceAtLargest, RatingKnows, ReadyAlike, StepsAlike, TestsReady};

/// A netlist under a sizing fires as its extended graph does, so that every law of firing counts holds of it.
///
/// `tested`: the test of readiness decides whether each channel to a module has an item and each from it has room. `room`: a module
/// that is ready has at most q items in each channel from it, and so finds one of the q + 1 slots free.
/// `ready`, `step`, `freely`: a module is ready, fires in a step and counts after free steps as in the graph.
/// `connected`: the graph of a checked netlist is in one piece. `rated`: a rating knows what the bounds at its rate ask for.
pub fn netlists_fire_as_their_graphs()
    ensures tested { TestsReady }
    ensures room { (net : Net) (x : ℕ → ℕ) (e : ℕ) → e < net.channels → is_ready net x (net.source e) ≡ true → fill net x e ≤ net.size e }
    ensures ready { ReadyAlike }
    ensures step { StepsAlike }
    ensures freely { FreelyAlike }
    ensures connected { InOnePiece }
    ensures largest { InOnePieceAtLargest }
    ensures rated { RatingKnows }
{}
