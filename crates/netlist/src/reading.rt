ghost use Rattle.std.specs.Prelude.{◌≡◌, ℕ, ◌<◌, ◌≤◌, length, slice_index, slice_index_or};
ghost use Rattle.netlist.specs.Holds.{Filled};
ghost use Rattle.netlist.specs.declared.reading.ReadError.TheVariants.{NoMemory, Refused};

use crate::gather::{Gathered, gather};
use crate::judge::judge;
use crate::netlist::Netlist;
use crate::refusal::{Cause, Refusal};
use std::alloc::{AllocError, Global};

/// Why a file was not read.
#[derive(Clone, Copy, PartialEq, Eq, Debug)]
pub enum ReadError {
    Refused(Refusal),
    /// The file has no fault, and there is no memory for the netlist.
    NoMemory,
}

impl From<Refusal> for ReadError {
    ghost from_gives = { λ refusal r. r ≡ Refused refusal };

    fn from(refusal: Refusal) -> ReadError {
        ReadError::Refused(refusal)
    }
}

impl From<AllocError> for ReadError {
    ghost from_gives = { λ _ r. r ≡ NoMemory };

    fn from(_error: AllocError) -> ReadError {
        ReadError::NoMemory
    }
}

/// Fills the netlist and the front of the sizing from a file, or leaves both as they are. The whole file is judged before memory
/// is asked for, so a faulty file always meets its fault.
pub fn read(
    heap: Global,
    file: &[u8],
    netlist: &mut Netlist,
    sizing: &mut [u8],
) -> Result<(), ReadError>
    ensures { Filled file.now result netlist.old netlist.new sizing.old sizing.new }
{
    let count = judge(file)?;
    if sizing.len() < count {
        return Err(Cause::ListTooShort.at(count).into());
    }
    let Gathered {
        modules,
        channels,
        sizes,
    } = gather(heap, file)?;
    put_sizes(&mut sizing[..count], &sizes);
    *netlist = Netlist { modules, channels };
    Ok(())
}

// Puts the sizes in front, and 1 where there are none.
fn put_sizes(table: &mut [u8], sizes: &[u8])
    requires { length sizes.now ≤ length table.old }
    ensures { (k : ℕ) → k < length table.old → slice_index table.new k ≡ slice_index_or sizes.now k 1 }
{
    table.fill(1);
    table[..sizes.len()].copy_from_slice(sizes);
}
