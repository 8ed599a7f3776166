// Compiling the text of a linear term to the table of its net.
#![tactic(auto)]

mod builder;
mod building;
pub mod compiler;
pub mod fault;
mod linking;
