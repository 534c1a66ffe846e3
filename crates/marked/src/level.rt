// One round of relaxation. Level 0 is 0 at each module; level k + 1 is the least that level k offers
// along one more place, or what it was. So level k has the least weight of the walks of at most k
// places to each module, and once a round lowers nothing, no longer walk weighs less either.
ghost use Rattle.std.specs.Prelude.{◌≡◌, ℕ, ◌<◌, ◌≤◌, ◌≢◌, ◌<ℤ◌, ◌≤ℤ◌, length, pos, None as Nothing, MatchOption, slice_index_or};
ghost use Rattle.marked.specs.Rounds.{Low, Lowered, Relaxed, arrival, at_start, places_of, value, via_at};

use crate::place::MODULES;
use crate::weighed::Weighed;

// The least weight by which a walk of at most so many places leads to a module, and the last place of
// the walk where the level before had more.
#[derive(Clone, Copy)]
pub(crate) struct Arrival {
    value: i32,
    pub(crate) via: Option<u16>,
}

// How each module is reached. An array for the most modules: a rating may not fail for memory.
#[derive(Clone, Copy)]
pub(crate) struct Level {
    pub(crate) arrivals: [Arrival; MODULES],
}

// None of the first so many modules counts as lowered any more; the values stay. To go over all 64 took nearly a third of the rating of
// eight modules. The arrivals are lent: of a loop over a part of an array of its own function's a proof knows nothing here.
fn unlower(arrivals: &mut [Arrival], modules: usize)
    requires { modules ≤ length arrivals.old }
    ensures values { (v : ℕ) → (slice_index_or arrivals.new v at_start).value ≡ (slice_index_or arrivals.old v at_start).value }
    ensures cleared { (v : ℕ) → v < modules → (slice_index_or arrivals.new v at_start).via ≡ Nothing }
    ensures kept { (v : ℕ) → modules ≤ v → (slice_index_or arrivals.new v at_start).via ≡ (slice_index_or arrivals.old v at_start).via }
{
    for arrival in arrivals[..modules].iter_mut() {
        arrival.via = None;
    }
}

impl Level {
    // Level 0: the walk of no place leads to each module, and weighs 0.
    pub(crate) const START: Level = Level {
        arrivals: [Arrival {
            value: 0,
            via: None,
        }; MODULES],
    };

    // The values of this level, with no module lowered yet. A round lowers none but the graph's modules, the first so many.
    fn unlowered(&self, modules: usize) -> Level
        requires few { modules ≤ 64 }
        requires beyond { (v : ℕ) → modules ≤ v → v < 64 → via_at self.now v ≡ Nothing }
        ensures { (v : ℕ) → v < 64 → (value result v ≡ value self.now v) × (via_at result v ≡ Nothing) }
    {
        let mut arrivals = self.arrivals;
        unlower(&mut arrivals, modules);
        Level { arrivals }
    }

    // Lowers the module v to an arrival, if that is lower.
    fn offer(&mut self, v: usize, offered: Arrival)
        requires { v < 64 }
        ensures other { (u : ℕ) → u ≢ v → arrival self.new u ≡ arrival self.old u }
        ensures less { offered.value <ℤ value self.old v → arrival self.new v ≡ offered }
        ensures more { value self.old v ≤ℤ offered.value → arrival self.new v ≡ arrival self.old v }
    {
        let present = &mut self.arrivals[v];
        if offered.value < present.value {
            *present = offered;
        }
    }

    // The level after this one. A round reads only this level, since a value of the next may already be
    // that of a longer walk.
    pub(crate) fn next(&self, weighed: Weighed) -> Level
        requires low { Low self.now }
        requires beyond { (v : ℕ) → weighed.graph.modules ≤ v → v < 64 → via_at self.now v ≡ Nothing }
        ensures { Relaxed weighed.entry (length (places_of weighed.entry)) self.now result }
    {
        let mut new = self.unlowered(weighed.graph.modules);
        for (i, place) in weighed.graph.places.iter().enumerate() {
            let value = self.arrivals[place.from].value + weighed.weight(*place);
            new.offer(
                place.to,
                Arrival {
                    value,
                    via: Some(i as u16),
                },
            );
        }
        new
    }

    // The first of so many modules that this level has lowered, if there is one.
    pub(crate) fn lowered(&self, modules: usize) -> Option<usize>
        requires { modules ≤ 64 }
        ensures { MatchOption result ((v : ℕ) → v < modules → via_at self.now v ≡ Nothing) (λ v. (v < modules) × Lowered self.now v) }
    {
        self.arrivals[..modules]
            .iter()
            .position(|arrival| arrival.via.is_some())
    }

    // Writes the values of so many modules as their potentials.
    pub(crate) fn settle(&self, modules: usize, potentials: &mut [i32])
        requires few { modules ≤ 64 }
        requires room { modules ≤ length potentials.old }
        ensures written { (v : ℕ) → v < modules → slice_index_or potentials.new v (pos 0) ≡ value self.now v }
        ensures kept { (v : ℕ) → modules ≤ v → slice_index_or potentials.new v (pos 0) ≡ slice_index_or potentials.old v (pos 0) }
    {
        // No `zip`: of what is written through an adapter of `iter_mut` other than `enumerate`, a proof knows nothing.
        for (v, arrival) in self.arrivals[..modules].iter().enumerate() {
            potentials[v] = arrival.value;
        }
    }
}
