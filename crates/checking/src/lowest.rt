// Looking for the first module with a fault.
ghost use Rattle.std.specs.Prelude.{ℕ, ◌≤◌};
ghost use Rattle.std.specs.Int.{IsInRange};
ghost use Rattle.checking.specs.Links.{Picks};

// The lowest of so many modules of which the test says yes. The closure says what it asks, since else it asks that the test may be
// called on any number.
pub(crate) fn lowest<F: Fn(usize) -> bool>(modules: usize, test: F) -> Option<usize>
    requires few { modules ≤ 64 }
    requires tests { (v : ℕ) → IsInRange 1 modules v → F.pre test v }
    ensures { Picks modules (F.post test) result }
{
    (1..modules + 1).find(
        |v: &usize| -> bool
            requires { F.pre test v.now }
        { test(*v) },
    )
}
