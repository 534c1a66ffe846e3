ghost use Rattle.std.specs.Prelude.{◌≡◌, MatchResult, Ok, Err};
ghost use Rattle.netlist.specs.Faults.{verdict};
ghost use Rattle.netlist.specs.Holds.{channels_of, modules_of, whole_verdict};
ghost use Rattle.netlist.specs.Layout.{Contents};
ghost use Rattle.netlist.specs.declared.reading.ReadError.TheVariants.{Refused};
ghost use Rattle.netlist.specs.declared.refusal.Refusal.{Refusal};

use netlist::{Netlist, ReadError, read};
use std::alloc::Global;

/// The netlist of a file, whatever its sizes.
pub fn netlist_of(heap: Global, file: &[u8]) -> Result<Netlist, ReadError>
    ensures { MatchResult result
        (λ n. (c : Contents) × (verdict file.now ≡ Ok c) × (modules_of n ≡ c.modules) × (channels_of n ≡ c.channels))
        (λ e. (x : Refusal) → e ≡ Refused x → whole_verdict file.now 192 ≡ Err x) }
{
    let mut netlist = Netlist::new(heap)?;
    read(heap, file, &mut netlist, &mut [0; 192])?;
    Ok(netlist)
}
