// Walks over modules, counted on a scale of the caller's choosing.
#![tactic(auto)]

pub mod elements;
pub mod least_total;
pub mod rounds;
pub mod scale;
#[cfg(test)]
mod tests;
pub mod yes_no;
