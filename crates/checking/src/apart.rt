// Modules that are not joined to module 1.
ghost use Rattle.std.specs.Prelude.{◌≡◌, ℕ, ◌-◌, false, length, Decides, slice_index_or};
ghost use Rattle.std.specs.Int.{IsInRange};
ghost use Rattle.checking.specs.Links.{Finds};
ghost use Rattle.netlist.specs.Holds.{modules as modules_in};
ghost use Rattle.checking.specs.Nets.{Joined};
ghost use Rattle.checking.specs.Faults.{Apart};

use crate::link::{Link, MOVES};
use crate::lowest::lowest;
use netlist::{MODULES, Netlist};

// Leaves yes at each module that is joined to module 1.
fn join(netlist: &Netlist, at: &mut [bool])
    requires { length at.old ≡ modules_in netlist.now }
    ensures { (v : ℕ) → IsInRange 1 (modules_in netlist.now) v → Decides (slice_index_or at.new (v - 1) false) (Joined netlist.now 1 v) }
{
    let n = netlist.modules().len();
    // The check may not fail for memory: its tables, here and below, are the fronts of arrays of the largest size.
    let mut cells = [false; MOVES];
    let table = &mut cells[0..n * n];
    Link::EitherWay.fill(netlist, table);
    at.fill(false);
    at[0] = true;
    Link::EitherWay.spread(netlist, table, at);
}

// The lowest module that is not joined to module 1.
pub(crate) fn module_apart(netlist: &Netlist) -> Option<usize>
    ensures { Finds (modules_in netlist.now) (Joined netlist.now 1) (Apart netlist.now) result }
{
    let n = netlist.modules().len();
    let mut cells = [false; MODULES];
    let at = &mut cells[0..n];
    join(netlist, at);
    lowest(n, |v| !at[v - 1])
}
