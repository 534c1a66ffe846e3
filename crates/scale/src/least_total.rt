// The least-total scale: what does the cheapest way come to?
ghost use Rattle.std.specs.Prelude.{ℕ, ◌<◌, length};
ghost use Rattle.scale.specs.Counts.{element};
ghost use Rattle.scale.specs.LeastTotal.{least_total, LeastWalk};
ghost use Rattle.scale.specs.Rounds.{Fitting};

use crate::elements::Total;
use crate::rounds::rounds;
use crate::scale::Scale;

impl Scale for Total {
    ghost scale = { least_total };

    fn no_way() -> Total {
        Total { sum: u32::MAX }
    }

    fn start() -> Total {
        Total { sum: 0 }
    }

    fn choice(self, other: Total) -> Total {
        self.min(other)
    }

    // The sum stops at no way: a walk that cannot be made stays so, whatever follows.
    fn extension(self, by: Total) -> Total {
        Total {
            sum: self.sum.saturating_add(by.sum),
        }
    }
}

// Leaves at each module the least total of a walk of `k` moves that ends there: what `totals` has at its first module, and the
// weights of its moves. What is left in `scratch` is open.
pub fn least_totals(totals: &mut [Total], scratch: &mut [Total], weights: &[Total], k: u32)
    requires { Fitting totals.old scratch.old weights.now }
    ensures { (v : ℕ) → v < length totals.old → LeastWalk totals.old weights.now k v (element least_total totals.new v) }
{
    rounds(totals, scratch, weights, k);
}
