//! The threads of all processes, each with its `pc`, registers and state, and their order.
#![tactic(auto)]

mod table;
mod thread;
mod tids;

pub use table::{Threads, id_at, place_of};
pub use thread::{Thread, ThreadState};
