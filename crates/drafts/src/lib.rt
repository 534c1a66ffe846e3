//! Netlist files for tests: netlists by a list of their channels, or drawn up module by module.
#![tactic(auto)]

mod draft;
mod nets;
mod reading;
mod shape;
mod text;

pub use draft::Draft;
pub use nets::{ALONE, DIAMOND, ITSELF, PAIR, ROUND, SAMPLE, TEN, TRIANGLE, VIDEO};
pub use reading::netlist_of;
pub use shape::{Shape, chain, ring};
pub use text::{line, spaced};
