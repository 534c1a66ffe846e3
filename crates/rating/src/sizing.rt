ghost use Rattle.std.specs.Prelude.{ℕ, ◌<◌};
ghost use Rattle.rating.specs.Sizings.{Tested, TestedBytes, sizing_fault};

use netlist::{Cause, Refusal};

/// Passes a list with a byte for each of so many channels, from a least of the channel's own to 16, or gives its refusal: the length
/// first, then the first byte out of range. Channels count from 0 in what says the least.
pub fn test_bytes<F: Fn(usize) -> u8>(
    channels: usize,
    bytes: &[u8],
    least: F,
) -> Result<(), Refusal>
    requires { (k : ℕ) → k < channels → F.pre least k }
    ensures { TestedBytes channels bytes.now (F.post least) result }
{
    if bytes.len() != channels {
        return Err(Cause::SizesOutOfRange.into());
    }
    for (at, byte) in bytes.iter().enumerate() {
        if *byte < least(at) || *byte > 16 {
            return Err(Refusal {
                cause: Cause::SizesOutOfRange,
                place: at + 1,
            });
        }
    }
    Ok(())
}

/// Passes a sizing of so many channels, or gives its refusal: the length first, then the first byte out of range.
pub fn test_sizing(channels: usize, sizing: &[u8]) -> Result<(), Refusal>
    ensures { Tested (sizing_fault channels sizing.now) result }
{
    test_bytes(channels, sizing, |_| 1)
}
