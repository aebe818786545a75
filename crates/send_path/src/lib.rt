//! The calls that carry messages between processes: a message is sent, received, given back and forwarded.
#![tactic(auto)]

mod carrying;
mod forwarding;
mod holding;
mod pages;
mod receiving;
mod returning;
mod seats;
mod sending;
mod threads;

pub use forwarding::forward;
pub use receiving::receive;
pub use returning::give_back;
pub use sending::{Sent, send};
