// The states of a net, and what may be done with each: sealed, run, normal; slips.
#![tactic(auto)]

pub mod account;
mod closing;
mod compiling;
mod drawing;
mod driving;
mod marks;
pub mod net;
pub mod normal;
mod opening;
pub mod openness;
pub mod progress;
mod putting;
mod reading;
mod returning;
mod rewriting;
pub mod run;
pub mod sealed;
pub mod slip;
mod views;
