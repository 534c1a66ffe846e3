//! Whole runs: a list of calls made on a run of a rated netlist, under its own sizing or under one that was found for a target; and all
//! that is promised of it.
#![tactic(auto)]

mod exchange;
mod plays;
mod trials;

pub use exchange::{Answer, Exchange, Reply, Request};
pub use plays::play;
pub use trials::trial;
