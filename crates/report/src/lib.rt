//! The text that the programs print, made of a file's bytes so that it can be tested.
#![tactic(auto)]

mod file;
mod forecasts;
mod input;
mod lines;
mod listing;
mod request;
mod sizes;
mod telling;
mod texts;

pub use file::NetlistFile;
pub use forecasts::forecast_text;
pub use input::{LONGEST, fill, read_file};
pub use listing::add_lines;
pub use request::{DEEPEST, Request};
pub use sizes::{add_deepened, size_text};
pub use telling::or_refusal;
pub use texts::rate_text;
