//! The channels of a chip as queues in one table of items, and the firing of a module on them.
#![tactic(auto)]

mod channels;
mod fires;
mod queue;

pub use channels::{Channels, ready};
pub use fires::{fire, start};
pub use queue::Queue;
