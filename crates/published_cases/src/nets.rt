// The netlists of the cases that no other test program has.
use anyhow::anyhow;
use drafts::Shape;
use netlist::Netlist;
use std::alloc::Global;

// Two blocks without a channel.
pub const APART: Shape<'static> = Shape {
    modules: 2,
    blocks: 2,
    channels: &[],
};

// Relay station 3 leads nowhere.
pub const LOOSE: Shape<'static> = Shape {
    modules: 3,
    blocks: 2,
    channels: &[(1, 2), (2, 3)],
};

// Relay stations 2 and 3 feed each other alone.
pub const RINGED: Shape<'static> = Shape {
    modules: 3,
    blocks: 1,
    channels: &[(2, 3), (3, 2), (2, 1)],
};

// The netlist of a file without fault.
pub fn netlist_of(heap: Global, file: &[u8]) -> anyhow::Result<Netlist> {
    drafts::netlist_of(heap, file).map_err(|_| anyhow!("a file that is not read"))
}

pub fn netlist_of_shape(heap: Global, shape: Shape<'_>) -> anyhow::Result<Netlist> {
    let file = shape.file(heap)?;
    netlist_of(heap, file.as_slice())
}
