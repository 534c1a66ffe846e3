// The yes/no scale: is there a way?
ghost use Rattle.std.specs.Prelude.{ℕ, ◌<◌, length};
ghost use Rattle.scale.specs.Counts.{element};
ghost use Rattle.scale.specs.Rounds.{Fitting};
ghost use Rattle.scale.specs.YesNo.{yes_no, SomeWalk};

use crate::rounds::rounds;
use crate::scale::Scale;

impl Scale for bool {
    ghost scale = { yes_no };

    fn no_way() -> bool {
        false
    }

    fn start() -> bool {
        true
    }

    fn choice(self, other: bool) -> bool {
        self | other
    }

    fn extension(self, by: bool) -> bool {
        self & by
    }
}

// Leaves at each module whether some walk of `k` moves ends there that starts where `at` says yes and makes only moves for which
// `moves` says yes. What is left in `scratch` is open. (This and `least_totals` are no clause of `rounds`: a law of `Scale` that says
// what a scale's answers mean may cite `specs/` alone, so all that proves it for the two scales would have to stand there.)
pub fn reach(at: &mut [bool], scratch: &mut [bool], moves: &[bool], k: u32)
    requires { Fitting at.old scratch.old moves.now }
    ensures { (v : ℕ) → v < length at.old → SomeWalk at.old moves.now k v (element yes_no at.new v) }
{
    rounds(at, scratch, moves, k);
}
