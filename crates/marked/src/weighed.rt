// A graph whose places are weighed at a target.
ghost use Rattle.std.specs.Prelude.{◌≡◌, ◌≤◌};
ghost use Rattle.marked.specs.Graphs.{weight};

use crate::graph::Graph;
use crate::place::Place;
use crate::target::Target;

// Each place weighs b times its tokens less a, at the target a/b. So a cycle is slow, with fewer than a
// tokens to b places, exactly if its weights sum below 0.
#[derive(Clone, Copy)]
pub(crate) struct Weighed<'g> {
    pub(crate) graph: Graph<'g>,
    pub(crate) target: Target,
}

impl Weighed<'_> {
    pub(crate) fn weight(self, place: Place) -> i32
        requires { place.tokens ≤ 17 }
        ensures { result ≡ weight self.entry.target.a self.entry.target.b place }
    {
        (self.target.b * place.tokens) as i32 - self.target.a as i32
    }
}
