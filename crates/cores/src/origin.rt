ghost use Rattle.std.specs.Prelude.{◌≡◌, ℕ, ◌≤◌};
ghost use Rattle.cores.specs.Sets.{origin_rules, origin_held, origin_start, reset_origin};

use crate::number::MODULES;
use crate::{CoreSet, Number};
use std::array;

/// An item that says which block it is from and how many that block emitted before it, its reset item included.
#[derive(Clone, Copy, PartialEq, Eq, Debug)]
pub struct Origin {
    pub module: u8,
    pub serial: u32,
}

impl Origin {
    /// The reset item of block `v`.
    fn reset(v: u8) -> Origin
        ensures { result ≡ reset_origin v }
    {
        Origin {
            module: v,
            serial: 0,
        }
    }
}

/// How many items a core has emitted, and the item that it absorbed last.
#[derive(Clone, Copy, PartialEq, Eq, Debug)]
pub struct OriginState {
    pub emits: u32,
    pub last: Origin,
}

/// Cores that number what they emit, so that an item found anywhere shows where it came from and when.
#[derive(Drop)]
pub struct OriginSet {
    // As in the sum set, an array by `v.index()`: a `States<S>` for both takes a function to make, to read and to write one, each
    // with its contract, and saves that call alone.
    states: [OriginState; MODULES],
}

impl OriginSet {
    /// No core has emitted anything; as the last absorbed item each has its own reset item.
    pub fn new() -> OriginSet
        ensures { (v : ℕ) → 1 ≤ v → v ≤ 64 → origin_held result v ≡ origin_start v }
    {
        let states = array::from_fn(|i| OriginState {
            emits: 0,
            last: Origin::reset(i as u8 + 1),
        });
        OriginSet { states }
    }
}

impl CoreSet for OriginSet {
    type Item = Origin;

    type State = OriginState;

    ghost rules = { λ _. origin_rules };

    ghost held = { origin_held };

    fn reset_item(&self, v: Number) -> Origin {
        Origin::reset(v.get())
    }

    fn state(&self, v: Number) -> OriginState {
        self.states[v.index()]
    }

    fn absorb(&mut self, v: Number, item: Origin) {
        self.states[v.index()].last = item;
    }

    fn emit(&mut self, v: Number) -> Origin {
        let i = v.index();
        let serial = self.states[i].emits.wrapping_add(1);
        self.states[i].emits = serial;
        Origin {
            module: v.get(),
            serial,
        }
    }
}
