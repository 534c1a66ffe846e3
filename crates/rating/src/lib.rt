//! The rate of a checked netlist under a sizing, with a slow cycle and potentials that show it.
#![tactic(auto)]

pub mod extend;
mod graph;
mod numbers;
mod rates;
mod rating;
mod sized;
mod sizing;
mod slow;

pub use graph::ExtendedGraph;
pub use rates::{rate, rated_cycle};
pub use rating::Rating;
pub use sized::SizedNetlist;
pub use sizing::{test_bytes, test_sizing};
pub use slow::{SlowCycle, slow_cycle, slow_cycle_with_tokens};
