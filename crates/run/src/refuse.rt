// The tests that calls of a run share, each with its refusal.
ghost use Rattle.std.specs.Prelude.{◌≡◌, ◌-◌, ◌<◌, ◌≤◌, true, false, ◌⊎◌, MatchResult};
ghost use Rattle.calls.specs.Calls.{no_such_number, out_of_turn};
ghost use Rattle.netlist.specs.declared.refusal.Cause.TheVariants.{ItemsTooShort};

use crate::inner::Inner;
use netlist::{Cause, Refusal};

// The place of what has this number, where so many are numbered from 1.
pub(crate) fn place(number: u8, count: u8) -> Result<usize, Refusal>
    ensures { MatchResult result (λ k. (1 ≤ number) × (number ≤ count) × (k ≡ number - 1)) (λ why. ((number ≡ 0) ⊎ (count < number)) × (why ≡ no_such_number)) }
{
    if number == 0 || number > count {
        return Err(Cause::NumberOutOfRange.into());
    }
    Ok(number as usize - 1)
}

impl Inner {
    // Refuses what has to come after prime.
    pub(crate) fn after_prime(&self) -> Result<(), Refusal>
        ensures { MatchResult result (λ _. self.now.primed ≡ true) (λ why. (self.now.primed ≡ false) × (why ≡ out_of_turn)) }
    {
        if !self.primed {
            return Err(Cause::OutOfTurn.into());
        }
        Ok(())
    }

    // Refuses an item table that has fewer entries than the channels own.
    pub(crate) fn room(&self, entries: usize) -> Result<(), Refusal>
        ensures { MatchResult result (λ _. self.now.channels.entries ≤ entries) (λ why. (entries < self.now.channels.entries) × (why ≡ record { cause = ItemsTooShort; place = self.now.channels.entries })) }
    {
        if entries < self.channels.entries {
            return Err(Refusal {
                cause: Cause::ItemsTooShort,
                place: self.channels.entries,
            });
        }
        Ok(())
    }
}
