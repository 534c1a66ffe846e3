// The extended graph of a netlist: what a channel's items and its free room let its ends do, as two places.
ghost use Rattle.std.specs.Prelude.{◌≡◌, ℕ, ◌*◌, ◌≤◌, length, take};
ghost use Rattle.marked.specs.Graphs.{at};
ghost use Rattle.netlist.specs.Holds.{channels_of, kind_of, modules};
ghost use Rattle.std.specs.Int.{IsInRange};
ghost use Rattle.rating.specs.Extended.{backward, forward, graph_of, reset_items};

use marked::Place;
use netlist::{Channel, Kind, Netlist};

// The items that a module puts into each of its channels at reset.
fn items_at_reset(kind: Kind) -> u32
    ensures { result ≡ reset_items kind }
{
    match kind {
        Kind::Block => 1,
        Kind::RelayStation => 0,
    }
}

// The place from a channel's source to its sink, and the place back.
fn places_of(netlist: &Netlist, channel: Channel, size: u8) -> (Place, Place)
    requires source { IsInRange 1 (modules netlist.now) channel.source }
    requires sink { IsInRange 1 (modules netlist.now) channel.sink }
    ensures there { result.0 ≡ forward (kind_of netlist.now) channel }
    ensures back { result.1 ≡ backward (kind_of netlist.now) channel size }
{
    let source = channel.source as usize - 1;
    let sink = channel.sink as usize - 1;
    let items = items_at_reset(netlist.kind(channel.source as usize));
    let there = Place {
        from: source,
        to: sink,
        tokens: items,
    };
    let back = Place {
        from: sink,
        to: source,
        tokens: size as u32 + 1 - items,
    };
    (there, back)
}

/// Puts the places of a netlist's extended graph into the front of a list, and returns how many they are. The rest of the list stays
/// as it was.
pub fn extend(netlist: &Netlist, sizing: &[u8], places: &mut [Place]) -> usize
    requires sized { length sizing.now ≡ length (channels_of netlist.now) }
    requires room { 2 * length sizing.now ≤ length places.old }
    ensures count { result ≡ 2 * length (channels_of netlist.now) }
    ensures places { take result places.new ≡ graph_of netlist.now sizing.now }
    ensures kept { (p : ℕ) → result ≤ p → at places.new p ≡ at places.old p }
{
    let channels = netlist.channels();
    // By `chunks_exact_mut(2)` it was tried: its iterator then holds the list, so no invariant of the loop can name what was put there.
    for (at, channel) in channels.iter().enumerate() {
        let (there, back) = places_of(netlist, *channel, sizing[at]);
        places[2 * at] = there;
        places[2 * at + 1] = back;
    }
    2 * channels.len()
}
