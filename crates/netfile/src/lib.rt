// Net files: which bytes are a net, what is wrong with all others, and how a net is written.
#![tactic(auto)]

mod build;
mod decode;
mod file;
pub mod head;
pub mod laws;
mod layout;
mod numbering;
pub mod reader;
pub mod survey;
pub mod writer;
