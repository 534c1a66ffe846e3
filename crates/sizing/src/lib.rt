//! The fewest slots that bring a checked netlist to a target rate.
#![tactic(auto)]

mod aim;
mod bounds;
mod deepened;
mod laws;
mod places;
mod rated;
mod requests;
mod sizes;
mod trials;

pub use laws::the_rate_decides;
pub use sizes::size;

#[cfg(test)]
mod tests;
