//! Runs of a rated netlist over any set of cores: prime, hold, step and questions. What each call answers and leaves is told against counts
//! that come from the netlist, the sizing and the calls alone.
#![tactic(auto)]

mod inner;
mod judge;
mod make;
mod refuse;
mod run;

pub use run::Run;
