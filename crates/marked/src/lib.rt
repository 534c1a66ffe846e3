//! Marked graphs: modules joined by places that hold tokens, the cycles that are slow for a target,
//! and the rate that the slowest cycle sets.
#![tactic(auto)]

mod graph;
mod laws;
mod level;
mod place;
mod rates;
mod slow;
mod target;
mod trail;
mod weighed;

pub use graph::Graph;
pub use laws::short_cycles_decide;
pub use place::{MODULES, PLACES, Place, TOKENS};
pub use rates::{Rated, rate, tokens_on};
pub use slow::slow_cycle;
pub use target::Target;

#[cfg(test)]
mod tests {
    use super::*;
    use std::test::Fail;

    fn place(from: usize, to: usize, tokens: u32) -> Place {
        Place { from, to, tokens }
    }

    // A ring of three modules with one token, and a second way from 2 to 1 with none.
    fn ring() -> [Place; 4] {
        [
            place(1, 2, 1),
            place(2, 0, 0),
            place(0, 1, 0),
            place(2, 1, 0),
        ]
    }

    #[test]
    fn keeps_the_limits(rt: HostRuntime) {
        assert_eq!(rt; Graph::fits(64, &[place(63, 0, 17)]), true);
        assert_eq!(rt; Graph::fits(64, &[place(64, 0, 17)]), false);
        assert_eq!(rt; Graph::fits(64, &[place(0, 0, 18)]), false);
        assert_eq!(rt; Graph::fits(65, &[]), false);
        assert_eq!(rt; Graph::fits(0, &[]), false);
    }

    #[test]
    fn finds_the_ring(rt: HostRuntime) -> Result<(), Fail> {
        let mut potentials = [7; 4];
        let mut cycle = [9; 4];
        let places = ring();
        let Some(graph) = Graph::checked(3, &places) else {
            return Err(Fail::new("no graph"));
        };
        let Some(half) = Target::new(1, 2) else {
            return Err(Fail::new("no target"));
        };
        let found = slow_cycle(graph, half, &mut potentials, &mut cycle);
        assert_eq!(rt; found, Some(3));
        assert_eq!(rt; cycle, [2, 0, 1, 9]);
        assert_eq!(rt; potentials, [7, 7, 7, 7]);
        Ok(())
    }

    #[test]
    fn rates_the_ring(rt: HostRuntime) -> Result<(), Fail> {
        let mut potentials = [7; 4];
        let mut cycle = [9; 4];
        let places = ring();
        let Some(graph) = Graph::checked(3, &places) else {
            return Err(Fail::new("no graph"));
        };
        let rated = rate(graph, &mut potentials, &mut cycle);
        assert_eq!(rt; (rated.rate, rated.length), ((1, 3), 3));
        assert_eq!(rt; cycle, [2, 0, 1, 9]);
        assert_eq!(rt; potentials, [-1, -2, 0, 7]);
        Ok(())
    }

    #[test]
    fn rates_at_most_one(rt: HostRuntime) -> Result<(), Fail> {
        let mut potentials = [7; 3];
        let mut cycle = [9; 3];
        // There and back, with three tokens on two places.
        let places = [place(0, 1, 2), place(1, 0, 1)];
        let Some(graph) = Graph::checked(2, &places) else {
            return Err(Fail::new("no graph"));
        };
        let rated = rate(graph, &mut potentials, &mut cycle);
        assert_eq!(rt; (rated.rate, rated.length), ((1, 1), 0));
        assert_eq!(rt; cycle, [9, 9, 9]);
        assert_eq!(rt; potentials, [0, 0, 7]);
        Ok(())
    }
}
