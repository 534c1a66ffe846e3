//! The cores of a chip's blocks: what a set of cores must offer so that a chip can be run on it, and two sets for trials.
#![tactic(auto)]

mod core_set;
mod number;
mod origin;
mod sum;

pub use core_set::CoreSet;
pub use number::{NoNumber, Number};
pub use origin::{Origin, OriginSet, OriginState};
pub use sum::SumSet;
