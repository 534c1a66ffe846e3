ghost use Rattle.std.specs.Prelude.{◌≡◌, ℕ, ◌∷◌, List, Some, IfOk, MatchResult, string_bytes};
ghost use Rattle.std.specs.List.{flat_map};
ghost use Rattle.netlist.specs.Refusals.{refusal_line};
ghost use Rattle.netlist.specs.declared.reading.ReadError.TheVariants.{Refused};
ghost use Rattle.netlist.specs.declared.refusal.Refusal.{Refusal};

use anyhow::anyhow;
use netlist::ReadError;
use std::alloc::{AllocError, Global};
use std::fmt::Display;

/// The text of a case, or the line of its refusal.
pub fn line(heap: Global, outcome: Result<String, ReadError>) -> anyhow::Result<String>
    ensures { IfOk result (λ text. MatchResult outcome (λ t. text ≡ t)
        (λ e. (x : Refusal) × (e ≡ Refused x) × (string_bytes text ≡ refusal_line x))) }
{
    match outcome {
        Ok(text) => Ok(text),
        Err(ReadError::Refused(refusal)) => Ok(refusal.to_string(heap)?),
        Err(ReadError::NoMemory) => Err(anyhow!("no memory")),
    }
}

/// The words of a list, a space before each.
pub fn spaced<T: Display>(heap: Global, words: &[T]) -> Result<String, AllocError>
    ensures { (f : T → List ℕ) → ((x : T) → T.output x ≡ Some (f x))
        → IfOk result (λ text. string_bytes text ≡ flat_map (λ x. 32 ∷ f x) words.now) }
{
    let mut text = String::new(heap);
    for word in words {
        write!(text, " {word}")?;
    }
    Ok(text)
}
