ghost use Rattle.std.specs.Prelude.{◌≡◌, OnOk};
ghost use Rattle.netlist.specs.Faults.{join, nothing, verdict};
ghost use Rattle.netlist.specs.Gathers.{Gathers, gathered};
ghost use Rattle.netlist.specs.Scans.{Fair, held};

use crate::channel::Channel;
use crate::name::Name;
use crate::netlist::Module;
use crate::reader::Reader;
use crate::reading::ReadError;
use crate::record::Record;
use std::alloc::{AllocError, Global};

// The records of a file, by section.
#[derive(Drop)]
pub(crate) struct Gathered {
    pub(crate) modules: Vec<Module>,
    pub(crate) channels: Vec<Channel>,
    pub(crate) sizes: Vec<u8>,
}

impl Gathered {
    fn new(heap: Global) -> Gathered
        ensures { gathered result ≡ nothing }
    {
        Gathered {
            modules: Vec::new(heap),
            channels: Vec::new(heap),
            sizes: Vec::new(heap),
        }
    }

    // One record more, behind those of its section.
    fn add(&mut self, heap: Global, record: Record<'_>) -> Result<(), AllocError>
        requires { Fair «record» }
        ensures { OnOk result (gathered self.new ≡ join (gathered self.old) (held «record».entry)) }
    {
        match record {
            Record::Module { kind, name } => {
                let name = Name::new(heap, name)?;
                self.modules.push(Module { kind, name })?;
            }
            Record::Channel(channel) => self.channels.push(channel)?,
            Record::Size(size) => self.sizes.push(size)?,
        }
        Ok(())
    }
}

// All records of a file.
pub(crate) fn gather(heap: Global, file: &[u8]) -> Result<Gathered, ReadError>
    ensures { Gathers (verdict file.now) result }
{
    let mut reader = Reader::new(file);
    let mut all = Gathered::new(heap);
    while let Some(record) = reader.next()? {
        all.add(heap, record)?;
    }
    Ok(all)
}
