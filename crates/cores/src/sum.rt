ghost use Rattle.std.specs.Prelude.{◌≡◌, ℕ, ◌≤◌};
ghost use Rattle.cores.specs.Sets.{sum_rules, sum_held};

use crate::number::MODULES;
use crate::{CoreSet, Number};

/// Cores that add up what they absorb. The items are numbers, so that one item lost, doubled or exchanged changes what comes after it.
#[derive(Drop)]
pub struct SumSet {
    // Of fixed size, since a run may not fail for memory.
    sums: [u32; MODULES],
}

impl SumSet {
    /// All sums are 0.
    pub fn new() -> SumSet
        ensures { (v : ℕ) → 1 ≤ v → v ≤ 64 → sum_held result v ≡ 0 }
    {
        SumSet { sums: [0; MODULES] }
    }
}

impl CoreSet for SumSet {
    type Item = u32;

    type State = u32;

    ghost rules = { λ _. sum_rules };

    ghost held = { sum_held };

    fn reset_item(&self, _v: Number) -> u32 {
        0
    }

    fn state(&self, v: Number) -> u32 {
        self.sums[v.index()]
    }

    fn absorb(&mut self, v: Number, item: u32) {
        let i = v.index();
        self.sums[i] = self.sums[i].wrapping_add(item);
    }

    fn emit(&mut self, v: Number) -> u32 {
        let i = v.index();
        self.sums[i] = self.sums[i].wrapping_add(v.get() as u32);
        self.sums[i]
    }
}
