// A place of a marked graph, and the limits that graphs keep.

/// The most modules that a graph may have.
pub const MODULES: usize = 64;

/// The most places that a graph may have.
pub const PLACES: usize = 384;

/// The most tokens that a place may hold.
pub const TOKENS: u32 = 17;

/// A place from one module to another, with the tokens that it holds.
#[derive(Clone, Copy)]
pub struct Place {
    pub from: usize,
    pub to: usize,
    pub tokens: u32,
}
