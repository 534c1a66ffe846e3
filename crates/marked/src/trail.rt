// The way back through the levels. A round that lowers a module does so along a place from a module
// that the round before had lowered, or it would have come a round earlier. So the way back from a
// lowered module never breaks off, and where a module comes again at a lower level, the places between
// weigh what it fell by in those rounds: less than 0. With as many rounds as modules one must come again.
ghost use Rattle.std.specs.Prelude.{◌≤◌};

use crate::level::Level;
use crate::place::MODULES;
use crate::weighed::Weighed;

// One level for the start, and one for each of as many rounds as there are modules.
pub(crate) const LEVELS: usize = MODULES + 1;

// The module that a way back passes at a level, and the place by which it was entered. They are `u16`,
// with casts, since stops of four bytes were measured faster than stops of sixteen.
#[derive(Clone, Copy)]
struct Stop {
    passes: u16,
    place: u16,
}

// A way back from the level `peak`, with a stop at each level.
#[derive(Drop)]
pub(crate) struct Trail {
    peak: usize,
    // An array of the most stops: a rating may not fail for memory.
    stops: [Stop; LEVELS],
    ghost few: { peak ≤ 64 },
}

impl Trail {
    ghost use Rattle.std.specs.Prelude.{◌≡◌, ℕ, ◌+◌, ◌-◌, ◌<◌, length, MatchOption, ◌≢◌, slice_index};
    ghost use Rattle.marked.specs.Rounds.{Apart, Back, Lowered, Rounds, Tried, level, stop, taken};

    // Goes from level `k + 1` to level `k`, by the place that lowered the module at level `k + 1`.
    fn step(&mut self, weighed: Weighed, levels: &[Level], k: usize)
        requires high { self.old.peak ≤ weighed.graph.modules }
        requires long { self.old.peak < length levels.now }
        requires rounds { Rounds weighed levels.now self.old.peak }
        requires within { k < self.old.peak }
        requires back { Back weighed levels.now (k + 1) self.old }
        requires apart { Apart (k + 1) self.old }
        ensures peak { self.new.peak ≡ self.old.peak }
        ensures back { Back weighed.entry levels.now k self.new }
        ensures apart { Apart (k + 1) self.new }
    {
        let x = self.stops[k + 1].passes as usize;
        let lowered_by = levels[k + 1].arrivals[x].via;
        let Some(p) = lowered_by else { unreachable() };
        self.stops[k + 1].place = p;
        self.stops[k].passes = weighed.graph.places[p as usize].from as u16;
    }

    // The level above `k` that has the same module as level `k`, if there is one.
    fn find(&self, k: usize) -> Option<usize>
        requires within { k ≤ self.now.peak }
        ensures { MatchOption result ((j : ℕ) → k < j → j ≤ self.now.peak → stop self.now k ≢ stop self.now j) (λ j. (k < j) × (j ≤ self.now.peak) × (stop self.now k ≡ stop self.now j)) }
    {
        (k + 1..self.peak + 1).find(|j| self.stops[k].passes == self.stops[*j].passes)
    }

    // The level from `k` up to but not including `j` that has the lowest module.
    fn lowest(&self, k: usize, j: usize) -> usize
        requires some { k < j }
        requires within { j ≤ self.now.peak }
        ensures from { k ≤ result }
        ensures below { result < j }
        ensures least { (i : ℕ) → k ≤ i → i < j → stop self.now result ≤ stop self.now i }
    {
        (k..j).min_by_key(|i| self.stops[*i].passes).unwrap_or(k)
    }

    // Writes the places between the levels `k` and `j`, in the order in which the modules are passed,
    // into `cycle` from the index `start` on.
    fn copy(&self, k: usize, j: usize, start: usize, cycle: &mut [u16])
        requires order { k ≤ j }
        requires within { j ≤ self.now.peak }
        requires room { start + (j - k) ≤ length cycle.old }
        ensures written { (i : ℕ) → i < j - k → slice_index cycle.new (start + i) ≡ taken self.now (k + 1 + i) }
        ensures below { (i : ℕ) → i < start → slice_index cycle.new i ≡ slice_index cycle.old i }
        ensures above { (i : ℕ) → start + (j - k) ≤ i → slice_index cycle.new i ≡ slice_index cycle.old i }
    {
        // No `zip`: of what is written through an adapter of `iter_mut` other than `enumerate`, a proof knows nothing.
        for (i, stop) in self.stops[k + 1..j + 1].iter().enumerate() {
            cycle[start + i] = stop.place;
        }
    }

    // Goes back from the module `top`, which round `peak` lowered, until a module comes again, and writes
    // the places between into `cycle`, from the lowest module on. Returns how many they are. No module may
    // come again where there were fewer rounds than modules.
    pub(crate) fn walk_back(
        weighed: Weighed,
        levels: &[Level],
        peak: usize,
        top: usize,
        cycle: &mut [u16],
    ) -> Option<usize>
        requires high { peak ≤ weighed.graph.modules }
        requires long { peak < length levels.now }
        requires rounds { Rounds weighed levels.now peak }
        requires within { top < weighed.graph.modules }
        requires lowered { Lowered (level levels.now peak) top }
        requires room { weighed.graph.modules ≤ length cycle.old }
        ensures { Tried weighed.entry peak cycle.old cycle.new result }
    {
        let mut trail = Trail {
            peak,
            stops: [Stop {
                passes: top as u16,
                place: 0,
            }; LEVELS],
        };
        for k in (0..peak).rev() {
            trail.step(weighed, levels, k);
            if let Some(j) = trail.find(k) {
                let m = trail.lowest(k, j);
                trail.copy(m, j, 0, cycle);
                trail.copy(k, m, j - m, cycle);
                return Some(j - k);
            }
        }
        None
    }
}
