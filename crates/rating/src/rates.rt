ghost use Rattle.std.specs.Prelude.{◌≤◌, length};
ghost use Rattle.netlist.specs.Holds.{modules};
ghost use Rattle.rating.specs.Extended.{graph_of};
ghost use Rattle.marked.specs.Answers.{Measured};
ghost use Rattle.rating.specs.Ratings.{RateAnswer, RatedCycle, Rates};

use crate::graph::{NO_PLACES, extended_in};
use crate::numbers::put_numbers;
use crate::rating::Rating;
use crate::sized::SizedNetlist;
use checking::Checked;
use marked::{MODULES, Rated};
use netlist::{Cause, Refusal};

/// Rates a checked netlist under a sizing. The lists want an entry for each module. Below rate 1 the front of `cycle` becomes the
/// place numbers of a cycle whose mean is the rate, which passes no module twice and starts at its lowest; at rate 1 nothing is
/// put there. `potentials` takes the potential of each module. What is not the answer's stays as it was, and all of it on a refusal.
pub fn rate<'n, 's>(
    checked: Checked<'n>,
    sizing: &'s [u8],
    cycle: &mut [u16],
    potentials: &mut [i32],
) -> Result<Rating<'n, 's>, Refusal>
    ensures { RateAnswer checked.entry.netlist.now sizing.now cycle.old cycle.new potentials.old potentials.new result }
{
    let chip = SizedNetlist::test(checked.netlist(), sizing)?;
    let modules = chip.netlist().modules().len();
    if cycle.len() < modules || potentials.len() < modules {
        return Err(Refusal {
            cause: Cause::ListTooShort,
            place: modules,
        });
    }
    let rated = measure(chip, cycle, potentials);
    Ok(Rating {
        netlist: chip.netlist(),
        sizing: chip.sizing(),
        rate: rated.rate,
        length: rated.length,
    })
}

// Rates the extended graph. `walk` takes the indices of the places of the cycle.
// That a list has room for every module is a clause, here, below and in the search for a slow cycle, and no type's invariant: the lists
// are the caller's, and public calls take them as slices.
fn rate_graph(chip: SizedNetlist, walk: &mut [u16], potentials: &mut [i32]) -> Rated
    requires space { modules chip.netlist.now ≤ length walk.old }
    requires room { modules chip.netlist.now ≤ length potentials.old }
    ensures { Measured (modules chip.entry.netlist.now) (graph_of chip.entry.netlist.now chip.entry.sizing.now) result.rate.0 result.rate.1 result.length potentials.old potentials.new walk.old walk.new }
{
    let mut places = NO_PLACES;
    marked::rate(extended_in(chip, &mut places), potentials, walk)
}

/// The rate of a netlist under a sizing, and a cycle that shows it, by the indices from 0 of its places in the extended graph: what
/// trials of many sizings want of a rating.
pub fn rated_cycle(chip: SizedNetlist, cycle: &mut [u16]) -> Rated
    requires space { modules chip.netlist.now ≤ length cycle.old }
    ensures { RatedCycle (modules chip.entry.netlist.now) (graph_of chip.entry.netlist.now chip.entry.sizing.now) result.rate.0 result.rate.1 result.length cycle.old cycle.new }
{
    // Scratch is fixed arrays, here and below, so that a rating cannot fail for memory.
    let mut potentials = [0; MODULES];
    rate_graph(chip, cycle, &mut potentials)
}

// Rates as `rate` does, into lists with room for every module.
fn measure(chip: SizedNetlist, cycle: &mut [u16], potentials: &mut [i32]) -> Rated
    requires space { modules chip.netlist.now ≤ length cycle.old }
    requires room { modules chip.netlist.now ≤ length potentials.old }
    ensures { Rates (modules chip.entry.netlist.now) (graph_of chip.entry.netlist.now chip.entry.sizing.now) result.rate.0 result.rate.1 result.length cycle.old cycle.new potentials.old potentials.new }
{
    let mut walk = [0; MODULES];
    let rated = rate_graph(chip, &mut walk, potentials);
    put_numbers(&walk[0..rated.length], cycle);
    rated
}
