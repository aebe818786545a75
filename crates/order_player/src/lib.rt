//! Moves of an order are played on a kernel: slices of threads, and events that may come once.
#![tactic(auto)]

mod moves;
mod slices;
mod told;

pub use moves::{MoveFault, play_move, play_order, play_thread};
pub use slices::{SliceFault, play_slice};
