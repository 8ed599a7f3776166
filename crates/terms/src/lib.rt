// Terms as text: which bytes are a linear term, and what is wrong with all others.
#![tactic(auto)]

pub mod grammar;
pub mod item;
pub mod items;
pub mod letters;
pub mod listing;
pub mod looking;
mod scanner;
mod scanning;
pub mod size;
pub mod survey;
mod tally;
mod tallying;
mod text_walk;
mod walker;
mod walking;
