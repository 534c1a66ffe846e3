// The check itself, and the state that it gives. The netlist is lent to it, so it cannot change while the state is held.
ghost use Rattle.std.specs.Prelude.{◌≡◌, Some, None as Nothing, MatchResult};
ghost use Rattle.checking.specs.Verdicts.{Faultless, Passed, Refused};

use crate::apart::module_apart;
use crate::loose::loose_relay;
use crate::rings::ringed_module;
use netlist::{Cause, Netlist, Refusal};

/// A netlist that the check passed: it has no fault. Nothing but the check makes one, and what follows from that is `Passed`, by the
/// lemma `passed_of`.
#[derive(Clone, Copy)]
pub struct Checked<'n> {
    netlist: &'n Netlist,
    // Not `Passed` itself: a ghost field must have no more than one proof, and in `Passed` the ways are found.
    ghost faultless: { Faultless netlist.now },
}

impl<'n> Checked<'n> {
    /// The netlist that passed.
    pub fn netlist(&self) -> &'n Netlist
        ensures { result.now ≡ self.now.netlist.now }
    {
        self.netlist
    }
}

// Refuses for this cause where there is a module with the fault.
fn pass(cause: Cause, place: Option<usize>) -> Result<(), Refusal>
    ensures { MatchResult result (λ _. place ≡ Nothing) (λ x. (x.cause ≡ cause) × (place ≡ Some x.place)) }
{
    match place {
        Some(place) => Err(Refusal { cause, place }),
        None => Ok(()),
    }
}

/// Passes a netlist, or refuses it for the first of three faults that some module has, with the lowest such module as the place.
pub fn check(netlist: &Netlist) -> Result<Checked<'_>, Refusal>
    ensures { MatchResult result (λ c. (c.netlist.now ≡ netlist.now) × Passed c.netlist.now) (Refused netlist.now) }
{
    pass(Cause::RelayEnds, loose_relay(netlist))?;
    pass(Cause::NotJoined, module_apart(netlist))?;
    pass(Cause::RelayRing, ringed_module(netlist))?;
    Ok(Checked { netlist })
}
