//! How often each module of a checked netlist will have fired after so many free steps.
#![tactic(auto)]

mod forecasts;
mod weights;

pub use forecasts::{STEPS, forecast};
