// Nets as tables.
#![tactic(auto)]

mod by_book;
pub mod draft;
pub mod drafting;
pub mod fault;
mod fitting;
mod lay;
pub mod link;
mod links;
pub mod occupancy;
mod rewrite;
mod seats;
mod splice;
pub mod spot;
pub mod table;
pub mod view;
