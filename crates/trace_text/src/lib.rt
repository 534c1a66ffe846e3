//! What a trace asks of a run and the text that it prints, made of the arguments' words and a file's bytes so that it can be tested.
#![tactic(auto)]

mod answers;
mod command;
mod parsing;
mod requests;
mod table;
mod traces;

pub use command::Command;
pub use parsing::parse;
pub use traces::trace_text;
