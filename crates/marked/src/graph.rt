// A graph that keeps the limits. What this file imports may name no `Graph`, since the struct's
// invariant imports it too.
ghost use Rattle.std.specs.Prelude.{◌≡◌, ◌≤◌, ◌↔◌, length, Decides, IfSome, IsSome};
ghost use Rattle.std.specs.Int.{IsInRange};
ghost use Rattle.marked.specs.Limits.{Starts, Ends, Light, Fit};

use crate::place::{MODULES, PLACES, Place, TOKENS};

/// A marked graph: 1 to 64 modules, numbered from 0, and at most 384 places between them, of at most
/// 17 tokens each. It is a view of a list of places, as cheap to copy as a slice.
#[derive(Clone, Copy)]
pub struct Graph<'g> {
    pub(crate) modules: usize,
    pub(crate) places: &'g [Place],
    ghost some: { IsInRange 1 64 modules },
    ghost few: { length places.now ≤ 384 },
    ghost starts: { Starts modules places.now },
    ghost ends: { Ends modules places.now },
    ghost light: { Light places.now },
}

impl<'g> Graph<'g> {
    /// Whether so many modules and these places are a graph.
    pub fn fits(modules: usize, places: &[Place]) -> bool
        ensures { Decides result (Fit modules places.now) }
    {
        let keeps = |place: &Place| {
            place.from < modules && place.to < modules && place.tokens <= TOKENS
        };
        (1..=MODULES).contains(&modules) && places.len() <= PLACES && places.iter().all(keeps)
    }

    /// The graph of so many modules and these places, if they are one.
    pub fn checked(modules: usize, places: &'g [Place]) -> Option<Graph<'g>>
        ensures exactly { IsSome result ↔ Fit modules places.now }
        ensures same { IfSome result (λ g. (g.modules ≡ modules) × (g.places.now ≡ places.now)) }
    {
        if Graph::fits(modules, places) {
            Some(Graph::new(modules, places))
        } else {
            None
        }
    }

    /// The graph of so many modules and these places, where it is known that they are one.
    pub fn new(modules: usize, places: &'g [Place]) -> Graph<'g>
        requires fit { Fit modules places.now }
        ensures modules { result.modules ≡ modules }
        ensures places { result.places.now ≡ places.now }
    {
        Graph { modules, places }
    }
}
