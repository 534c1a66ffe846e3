// What a run copies out of a rating.
ghost use Rattle.std.specs.Prelude.{◌≡◌, ◌≤◌, false, length};
ghost use Rattle.counts.specs.Nets.{is_block};
ghost use Rattle.netlist.specs.Holds.{kind_of, modules};
ghost use Rattle.run.specs.Making.{LaidOut, Small};
ghost use Rattle.run.specs.Told.{Lists};

use netlist::{Channel, Kind, Netlist};
use queues::Channels;

// The queues of the channels, all empty, one part of the item table behind another.
pub(crate) fn lay(channels: &[Channel], sizing: &[u8]) -> Channels
    requires few { length channels.now ≤ 192 }
    requires same { length sizing.now ≡ length channels.now }
    requires small { Small sizing.now }
    ensures count { result.count ≡ length channels.now }
    ensures laid { LaidOut channels.now sizing.now result.queues (length channels.now) result.entries }
{
    let mut laid = Channels::new();
    for (e, channel) in channels.iter().enumerate() {
        laid.add(channel.source, channel.sink, sizing[e]);
    }
    laid
}

fn is_block(kind: Kind) -> bool
    ensures { result ≡ is_block kind }
{
    matches!(kind, Kind::Block)
}

// Which modules are blocks: module v at place v - 1 of an array as `Inner` has it, since making a run may not fail for memory.
pub(crate) fn blocks_of(netlist: &Netlist) -> [bool; 64]
    ensures { Lists (modules netlist.now) result false (λ v. is_block (kind_of netlist.now v)) }
{
    let mut blocks = [false; 64];
    for (i, block) in blocks.iter_mut().enumerate() {
        *block = is_block(netlist.kind(i + 1));
    }
    blocks
}
