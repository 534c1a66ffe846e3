ghost use Rattle.std.specs.Prelude.{◌≡◌, take, None};
ghost use Rattle.netlist.specs.Holds.{channels};
ghost use Rattle.rating.specs.Sizings.{sizing_fault};

use netlist::{CHANNELS, Netlist};

/// What a netlist file says: a netlist, and a queue size for each channel.
#[derive(Drop)]
pub struct NetlistFile {
    pub(crate) netlist: Netlist,
    // The sizes at its front. An array, so that no memory is asked for.
    pub(crate) table: [u8; CHANNELS],
    ghost sized: { sizing_fault (channels netlist) (take (channels netlist) table) ≡ None },
}

impl NetlistFile {
    pub fn netlist(&self) -> &Netlist
        ensures { result.now ≡ self.now.netlist }
    {
        &self.netlist
    }
}
