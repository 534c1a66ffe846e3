// The extended graph of a netlist under a sizing, with the list that holds its places.
ghost use Rattle.std.specs.Prelude.{◌≡◌, ◌≤◌, take};
ghost use Rattle.marked.specs.Limits.{Fit};
ghost use Rattle.netlist.specs.Holds.{modules};
ghost use Rattle.rating.specs.Extended.{graph_of};

use crate::extend::extend;
use crate::sized::SizedNetlist;
use marked::{Graph, PLACES, Place};

// Room for the places of any netlist, before they are put there.
pub(crate) const NO_PLACES: [Place; PLACES] = [Place {
    from: 0,
    to: 0,
    tokens: 0,
}; PLACES];

// The extended graph, its places in a list of the caller's. An `ExtendedGraph` has nine kilobytes, which are copied where it is handed out:
// that took two thirds of the time of all else in the rating of three modules.
pub(crate) fn extended_in<'p>(chip: SizedNetlist, places: &'p mut [Place; PLACES]) -> Graph<'p>
    ensures modules { result.modules ≡ modules chip.entry.netlist.now }
    ensures places { result.places.now ≡ graph_of chip.entry.netlist.now chip.entry.sizing.now }
{
    let count = extend(chip.netlist(), chip.sizing(), places);
    Graph::new(chip.netlist().modules().len(), &places[..count])
}

/// The extended graph of a netlist under a sizing. Its places are the first `count` of the list, which is an array, since a rating may not
/// fail for memory.
#[derive(Drop)]
pub struct ExtendedGraph {
    modules: usize,
    places: [Place; PLACES],
    count: usize,
    ghost within: { count ≤ 384 },
    ghost fit: { Fit modules (take count places) },
}

impl ExtendedGraph {
    pub fn of(chip: SizedNetlist) -> ExtendedGraph
        ensures modules { result.modules ≡ modules chip.entry.netlist.now }
        ensures places { take result.count result.places ≡ graph_of chip.entry.netlist.now chip.entry.sizing.now }
    {
        let mut places = NO_PLACES;
        let count = extend(chip.netlist(), chip.sizing(), &mut places);
        ExtendedGraph {
            modules: chip.netlist().modules().len(),
            places,
            count,
        }
    }

    /// The graph as a list of places.
    pub fn places(&self) -> &[Place]
        ensures { result.now ≡ take self.now.count self.now.places }
    {
        &self.places[0..self.count]
    }

    /// The graph.
    pub fn graph(&self) -> Graph<'_>
        ensures modules { result.modules ≡ self.now.modules }
        ensures places { result.places.now ≡ take self.now.count self.now.places }
    {
        Graph::new(self.modules, self.places())
    }
}
