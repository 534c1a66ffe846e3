ghost use Rattle.std.specs.Prelude.{◌≡◌, ℕ, ◌≤◌, List, ◌++◌, length, IfOk, string_bytes, OnOk};
ghost use Rattle.report.specs.Lines.{numbered};

use std::alloc::AllocError;

/// Adds the line of each item of a list, which takes the item's number, counted from 1, and the item.
pub fn add_lines<T, F: Fn(usize, &T) -> Result<String, AllocError>>(
    text: &mut String,
    list: &[T],
    line: F,
) -> Result<(), AllocError>
    requires { (k : ℕ) (x : _) → 1 ≤ k → k ≤ length list.now → F.pre line k x }
    ensures { (says : ℕ → T → List ℕ) → ((k : ℕ) (x : _) (r : _) → F.post line k x r → IfOk r (λ s. string_bytes s ≡ says k x.now)) → OnOk result (string_bytes text.new ≡ string_bytes text.old ++ numbered says 1 list.now) }
{
    for (at, item) in list.iter().enumerate() {
        let number = at + 1;
        let line = line(number, item)?;
        text.push_str(line.as_str())?;
    }
    Ok(())
}
