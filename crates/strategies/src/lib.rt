// Strategies: which waiting pair comes next.
#![tactic(auto)]

mod arrivals;
pub mod choice;
pub mod line;
pub mod pair;
pub mod ring;
pub mod split;
pub mod stack;
pub mod strategy;
#[cfg(test)]
mod tests;
