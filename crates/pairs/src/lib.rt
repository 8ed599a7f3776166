// The active pairs of a table: the one at a place, and those that a rewrite makes.
#![tactic(auto)]

pub mod active;
mod gather;
pub mod laws;
pub mod rewrite;
