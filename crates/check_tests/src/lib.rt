//! What the check says of small netlists, and of full ones.
#![tactic(auto)]

#[cfg(test)]
mod tests;
