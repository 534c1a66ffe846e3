//! The check that a netlist passes before anything is asked of it, and what it then promises.
#![tactic(auto)]

mod apart;
mod checked;
mod link;
mod loose;
mod lowest;
mod rings;

pub use checked::{Checked, check};
