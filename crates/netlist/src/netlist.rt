ghost use Rattle.std.specs.Prelude.{◌≡◌, ◌≤◌, IfOk, vec_len};
ghost use Rattle.std.specs.Int.{IsInRange};
ghost use Rattle.netlist.specs.Limits.{Sinks, Sources};

use crate::channel::Channel;
use crate::kind::Kind;
use crate::name::Name;
use std::alloc::{AllocError, Global};

/// The most modules that a netlist may have.
pub const MODULES: usize = 64;

/// The most channels that a netlist may have.
pub const CHANNELS: usize = 192;

#[derive(Drop)]
pub struct Module {
    pub kind: Kind,
    pub name: Name,
}

/// 1 to 64 modules, and at most 192 channels among them. Module 1 is the first of the list, and so with channels.
#[derive(Drop)]
pub struct Netlist {
    pub(crate) modules: Vec<Module>,
    pub(crate) channels: Vec<Channel>,
    ghost some: { IsInRange 1 64 (vec_len modules) },
    ghost few: { vec_len channels ≤ 192 },
    ghost sources: { Sources (vec_len modules) channels.items },
    ghost sinks: { Sinks (vec_len modules) channels.items },
}

impl Netlist {
    // Inside, since these definitions speak of `Netlist`, whose ghost fields import what stands at the top of the file.
    ghost use Rattle.netlist.specs.Holds.{Fresh, kind_of};

    /// One block named A, without channels.
    pub fn new(heap: Global) -> Result<Netlist, AllocError>
        ensures { IfOk result Fresh }
    {
        let name = Name::new(heap, "A")?;
        let block = Module {
            kind: Kind::Block,
            name,
        };
        Ok(Netlist {
            modules: vec![in heap; block]?,
            channels: Vec::new(heap),
        })
    }

    pub fn modules(&self) -> &[Module]
        ensures { result.now ≡ self.now.modules.items }
    {
        self.modules.as_slice()
    }

    pub fn channels(&self) -> &[Channel]
        ensures { result.now ≡ self.now.channels.items }
    {
        self.channels.as_slice()
    }

    /// The kind of module `v`, a block where there are fewer; for 0 it is module 1's.
    pub fn kind(&self, v: usize) -> Kind
        ensures { result ≡ kind_of self.now v }
    {
        match self.modules.get(v.saturating_sub(1)) {
            Some(module) => module.kind,
            None => Kind::Block,
        }
    }
}
