ghost use Rattle.std.specs.Prelude.{◌≡◌};

use crate::draft::Draft;
use netlist::Kind;
use std::alloc::{AllocError, Global};

/// A netlist whose first modules are blocks and whose others are relay stations. A channel is its source and its sink.
#[derive(Clone, Copy)]
pub struct Shape<'a> {
    pub modules: u8,
    pub blocks: u8,
    // Pairs, as no other form keeps a table of channels as short.
    pub channels: &'a [(u8, u8)],
}

impl<'a> Shape<'a> {
    /// A shape of all 64 modules.
    pub fn full(blocks: u8, channels: &'a [(u8, u8)]) -> Shape<'a>
        ensures modules { result.modules ≡ 64 }
        ensures blocks { result.blocks ≡ blocks }
        ensures channels { result.channels.now ≡ channels.now }
    {
        Shape {
            modules: 64,
            blocks,
            channels,
        }
    }
}

impl Shape<'_> {
    /// The file of this netlist, without sizes.
    pub fn file(self, heap: Global) -> anyhow::Result<Vec<u8>> {
        let mut draft = Draft::new(heap);
        for number in 0..self.modules {
            let kind = if number < self.blocks {
                Kind::Block
            } else {
                Kind::RelayStation
            };
            draft.add(kind)?;
        }
        for (source, sink) in self.channels {
            draft.join(*source, *sink)?;
        }
        Ok(draft.file(heap)?)
    }
}

/// The 192 channels of a chain of 62 blocks, in three turns and a part of a fourth, and two relay stations beside its last link.
/// Channel 192 is that link once more.
pub fn chain(heap: Global) -> Result<Vec<(u8, u8)>, AllocError> {
    (0..188u8)
        .map(|number| 1 + number % 61)
        .map(|block| (block, block + 1))
        .chain([(61, 63), (63, 64), (64, 62), (61, 62)])
        .collect(heap)
}

/// The 192 channels of a ring of 64 modules that channel 192 closes, and a way to module 1 from each of the others, in two turns and
/// a part of a third.
pub fn ring(heap: Global) -> Result<Vec<(u8, u8)>, AllocError> {
    (1..64u8)
        .map(|number| (number, number + 1))
        .chain((0..128u8).map(|number| (1 + number % 63, 1)))
        .chain([(64, 1)])
        .collect(heap)
}
