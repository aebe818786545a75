//! The processes: whether each is alive, how long its heap is, and its connections to servers.
#![tactic(auto)]

mod process;
mod table;

pub use table::Processes;
