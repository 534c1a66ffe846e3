// Rings of relay stations only.
ghost use Rattle.std.specs.Prelude.{◌≡◌, ◌*◌, length, Decides};
ghost use Rattle.std.specs.Int.{IsInRange};
ghost use Rattle.checking.specs.Links.{Finds, Table};
ghost use Rattle.netlist.specs.Holds.{modules as modules_in};
ghost use Rattle.checking.specs.Nets.{Hops};
ghost use Rattle.checking.specs.Faults.{Ringed};

use crate::link::{Link, MOVES};
use crate::lowest::lowest;
use netlist::{MODULES, Netlist};

// Whether module `v` is on a ring: whether from where a step out of it leads, steps lead back to it.
fn is_ringed(netlist: &Netlist, table: &[bool], v: usize) -> bool
    requires in_range { IsInRange 1 (modules_in netlist.now) v }
    requires table { Table (Hops netlist.now) (modules_in netlist.now) table.now }
    requires table_len { length table.now ≡ modules_in netlist.now * modules_in netlist.now }
    ensures { Decides result (Ringed netlist.now v) }
{
    let n = netlist.modules().len();
    // Scratch is fixed arrays, here and below, so that the check cannot fail for memory.
    let mut cells = [false; MODULES];
    let at = &mut cells[0..n];
    Link::Relays.step_from(netlist, v, at);
    Link::Relays.spread(netlist, table, at);
    at[v - 1]
}

// The lowest module on a ring.
pub(crate) fn ringed_module(netlist: &Netlist) -> Option<usize>
    ensures { Finds (modules_in netlist.now) (λ v. Ringed netlist.now v → ⊥) (Ringed netlist.now) result }
{
    let n = netlist.modules().len();
    let mut cells = [false; MOVES];
    let table = &mut cells[0..n * n];
    Link::Relays.fill(netlist, table);
    lowest(n, |v| is_ringed(netlist, table, v))
}
