// The tests of a request, in the order of the refusals.
ghost use Rattle.std.specs.Prelude.{◌≡◌, Some, None as Nothing, MatchResult};
ghost use Rattle.rating.specs.Sizings.{Tested};
ghost use Rattle.sizing.specs.Requests.{caps_fault, request_fault, target_fault};

use marked::Target;
use netlist::{Cause, Refusal};
use rating::{test_bytes, test_sizing};

// The target A/B, if B is from 1 to 64 and A from 1 to B.
fn target_of(a: u32, b: u32) -> Result<Target, Refusal>
    ensures { MatchResult result (λ t. (target_fault a b ≡ Nothing) × (t.a ≡ a) × (t.b ≡ b)) (λ x. target_fault a b ≡ Some x) }
{
    match Target::new(a, b) {
        Some(target) if a > 0 => Ok(target),
        _ => Err(Cause::TargetOutOfRange.into()),
    }
}

// Passes a cap for each byte of a sizing, from that byte to 16.
fn test_caps(sizing: &[u8], caps: &[u8]) -> Result<(), Refusal>
    ensures { Tested (caps_fault sizing.now caps.now) result }
{
    test_bytes(sizing.len(), caps, |at| sizing[at])
}

// Passes a request for a netlist of so many channels and gives its target, or gives its first fault.
pub(crate) fn test_request(
    channels: usize,
    target: (u32, u32),
    caps: &[u8],
    allowance: usize,
    sizing: &[u8],
) -> Result<Target, Refusal>
    ensures { MatchResult result (λ t. (request_fault channels target.0 target.1 caps.now allowance sizing.now ≡ Nothing) × (t.a ≡ target.0) × (t.b ≡ target.1)) (λ x. request_fault channels target.0 target.1 caps.now allowance sizing.now ≡ Some x) }
{
    let target = target_of(target.0, target.1)?;
    test_sizing(channels, sizing)?;
    test_caps(sizing, caps)?;
    if allowance > 8 {
        return Err(Cause::AllowanceOutOfRange.into());
    }
    Ok(target)
}
