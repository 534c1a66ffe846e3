//! Netlists of cores in shells, relay stations and channels, the file that holds one, and why a call refuses.
#![tactic(auto)]

mod channel;
mod flaw;
mod gather;
mod judge;
mod kind;
mod laws;
mod name;
mod netlist;
mod reader;
mod reading;
mod record;
mod refusal;
mod scan;
mod splits;

pub use channel::Channel;
pub use kind::Kind;
pub use laws::{a_file_says_its_layout, faults_come_first};
pub use name::Name;
pub use netlist::{CHANNELS, MODULES, Module, Netlist};
pub use reader::Reader;
pub use reading::{ReadError, read};
pub use record::Record;
pub use refusal::{Cause, Refusal};
