// A rate to reach. What this file imports may name no `Target`, since the struct's invariant imports
// it too.
ghost use Rattle.std.specs.Prelude.{◌≡◌, ◌≤◌, ◌↔◌, IfSome, IsSome};

use crate::place::MODULES;

/// A rate to reach: a fraction of at most 1 whose denominator is at most 64, as that of every rate is.
#[derive(Clone, Copy)]
pub struct Target {
    pub(crate) a: u32,
    pub(crate) b: u32,
    ghost proper: { a ≤ b },
    ghost small: { b ≤ 64 },
}

impl Target {
    /// The target `a`/`b`, if it is one.
    pub fn new(a: u32, b: u32) -> Option<Target>
        ensures exactly { IsSome result ↔ ((a ≤ b) × (b ≤ 64)) }
        ensures same { IfSome result (λ t. (t.a ≡ a) × (t.b ≡ b)) }
    {
        if a <= b && b <= MODULES as u32 {
            Some(Target { a, b })
        } else {
            None
        }
    }

    // The highest.
    pub(crate) fn one() -> Target
        ensures a { result.a ≡ 1 }
        ensures b { result.b ≡ 1 }
    {
        Target { a: 1, b: 1 }
    }

    /// The target as a fraction, to be compared with others by cross products.
    pub fn fraction(self) -> (u32, u32)
        ensures a { result.0 ≡ self.a }
        ensures b { result.1 ≡ self.b }
    {
        (self.a, self.b)
    }
}
