//! The living servers: each has an identifier, a serial that is never used again, its process, and a seat
//! that a later server may use again.
#![tactic(auto)]

mod table;

pub use table::{ServerSeat, Servers};
