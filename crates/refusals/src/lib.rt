// Refusals: what every layer says when it says no, and how that is shown.
#![tactic(auto)]

pub mod fault;
pub mod faults;
pub mod layer;
pub mod memory;
pub mod refusal;
