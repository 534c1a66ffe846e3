// Relay stations whose channels are too few or too many.
ghost use Rattle.std.specs.Prelude.{Decides};
ghost use Rattle.checking.specs.Links.{Finds};
ghost use Rattle.netlist.specs.Holds.{modules as modules_in};
ghost use Rattle.checking.specs.Nets.{Relay};
ghost use Rattle.checking.specs.Faults.{Loose};

use crate::lowest::lowest;
use netlist::{Kind, Netlist};

// Whether module `v` is a relay station.
pub(crate) fn is_relay(netlist: &Netlist, v: usize) -> bool
    ensures { Decides result (Relay netlist.now v) }
{
    netlist.kind(v) == Kind::RelayStation
}

// Whether module `v` is a relay station without exactly one input channel, or without an output channel.
fn is_loose(netlist: &Netlist, v: usize) -> bool
    ensures { Decides result (Loose netlist.now v) }
{
    let channels = netlist.channels();
    let inputs = channels
        .iter()
        .filter(|channel| channel.sink as usize == v)
        .count();
    let outputs = channels
        .iter()
        .filter(|channel| channel.source as usize == v)
        .count();
    is_relay(netlist, v) && (inputs != 1 || outputs == 0)
}

// The lowest such relay station.
pub(crate) fn loose_relay(netlist: &Netlist) -> Option<usize>
    ensures { Finds (modules_in netlist.now) (λ v. Loose netlist.now v → ⊥) (Loose netlist.now) result }
{
    lowest(netlist.modules().len(), |v| is_loose(netlist, v))
}
