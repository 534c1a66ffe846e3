ghost use Rattle.std.specs.Prelude.{◌≡◌, IfOk, string_bytes};
ghost use Rattle.netlist.specs.Faults.{verdict};
ghost use Rattle.report.specs.Files.{PrintedOf, ReadAs, sizes_of};

use crate::file::NetlistFile;
use netlist::{CHANNELS, Netlist, ReadError, read};
use std::alloc::{AllocError, Global};

// In a file of its own: the contract's definitions speak of the type, and its file may not name them.
impl NetlistFile {
    /// Reads the bytes of a file.
    pub fn read(heap: Global, file: &[u8]) -> Result<NetlistFile, ReadError>
        ensures { ReadAs (verdict file.now) result }
    {
        let mut netlist = Netlist::new(heap)?;
        let mut table = [1; CHANNELS];
        read(heap, file, &mut netlist, &mut table)?;
        Ok(NetlistFile { netlist, table })
    }

    pub fn sizing(&self) -> &[u8]
        ensures { result.now ≡ sizes_of self.now }
    {
        let channels = self.netlist.channels().len();
        &self.table[..channels]
    }
}

/// A text, or the line of the refusal that stands for it.
pub fn or_refusal(heap: Global, told: Result<String, ReadError>) -> Result<String, AllocError>
    ensures { IfOk result (λ text. PrintedOf told (string_bytes text)) }
{
    match told {
        Ok(text) => Ok(text),
        Err(ReadError::Refused(refusal)) => format!(in heap; "{refusal}\n"),
        Err(ReadError::NoMemory) => Err(AllocError),
    }
}
