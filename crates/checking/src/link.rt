// Steps from module to module, and where they lead. Which channels make a step is all that the test for joined modules and the
// test for rings differ in, so both go by one code. An enum, and no trait with two unit types: that would want a ghost member, its
// law and a type parameter on each method, for one `match` of two arms. And no closure `impl Fn(Channel, usize, usize) -> bool`:
// `steps`, `moves`, `fill` and `step_from` would each ask what a call of it needs and gives, where `Takes` now says it of the link.
ghost use Rattle.std.specs.Prelude.{◌≡◌, ℕ, ◌+◌, ◌*◌, ◌<◌, false, length, Decides, slice_index_or};
ghost use Rattle.checking.specs.Links.{Move, Reached, Stepping, Table, Step, Takes};
ghost use Rattle.netlist.specs.Holds.{modules as modules_in};

use crate::loose::is_relay;
use netlist::{Channel, MODULES, Netlist};
use scale::yes_no::reach;

// The most entries of a table of moves.
pub(crate) const MOVES: usize = MODULES * MODULES;

#[derive(Clone, Copy)]
pub(crate) enum Link {
    /// Any channel, in either direction.
    EitherWay,
    /// A channel from a relay station to a relay station, in its direction.
    Relays,
}

impl Link {
    // Whether the channel makes a step from module `u` to module `v`.
    fn takes(self, netlist: &Netlist, channel: Channel, u: usize, v: usize) -> bool
        ensures { Decides result (Takes self netlist.now channel u v) }
    {
        let (source, sink) = (channel.source as usize, channel.sink as usize);
        match self {
            Link::EitherWay => (source == u && sink == v) || (source == v && sink == u),
            Link::Relays => {
                source == u && sink == v && is_relay(netlist, u) && is_relay(netlist, v)
            }
        }
    }

    // Whether some channel does.
    fn steps(self, netlist: &Netlist, u: usize, v: usize) -> bool
        ensures { Decides result ((e : ℕ) × Step self netlist.now e u v) }
    {
        netlist
            .channels()
            .iter()
            .any(|channel| self.takes(netlist, *channel, u, v))
    }

    // Whether one may be at `v` a move after being at `u`: by staying there, or by a step.
    fn moves(self, netlist: &Netlist, u: usize, v: usize) -> bool
        ensures { Decides result (Move (Step self netlist.now) u v) }
    {
        u == v || self.steps(netlist, u, v)
    }

    // Fills the table of moves. That it is square is a clause here, in `spread` and in `is_ringed`, and no struct's invariant: a struct
    // of link, netlist and table would be made once for each link, and then ask the same of the slice that it is made of.
    pub(crate) fn fill(self, netlist: &Netlist, table: &mut [bool])
        requires { length table.old ≡ modules_in netlist.now * modules_in netlist.now }
        ensures { Table (Step self netlist.now) (modules_in netlist.now) table.new }
    {
        let n = netlist.modules().len();
        for (at, cell) in table.iter_mut().enumerate() {
            *cell = self.moves(netlist, at / n + 1, at % n + 1);
        }
    }

    // Leaves yes at each module to which a step leads from module `u`.
    pub(crate) fn step_from(self, netlist: &Netlist, u: usize, at: &mut [bool])
        ensures { Stepping (Step self netlist.now) u at.new }
    {
        for (v, cell) in at.iter_mut().enumerate() {
            *cell = self.steps(netlist, u, v + 1);
        }
    }

    // Leaves yes at each module that steps, one or more or none, lead to from a module at which `at` says yes. A way that passes a
    // module twice can be cut short, so n - 1 moves are enough.
    pub(crate) fn spread(self, netlist: &Netlist, table: &[bool], at: &mut [bool])
        requires table { Table (Step self netlist.now) (modules_in netlist.now) table.now }
        requires table_len { length table.now ≡ modules_in netlist.now * modules_in netlist.now }
        requires at_len { length at.old ≡ modules_in netlist.now }
        ensures { (v : ℕ) → v < modules_in netlist.now → Decides (slice_index_or at.new v false) (Reached (Step self netlist.now) at.old v) }
    {
        let n = netlist.modules().len();
        // Scratch is a fixed array, so that the check cannot fail for memory.
        let mut scratch = [false; MODULES];
        reach(at, &mut scratch[0..n], table, n as u32 - 1);
    }
}
