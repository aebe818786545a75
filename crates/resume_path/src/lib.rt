//! The machine of a state is built again, part by part.
#![tactic(auto)]

mod claims;
mod filling;
mod lends;
mod messages;
mod orphans;
mod pages;
mod processes;
mod resuming;
mod servers;
mod sizes;
mod threads;

pub use resuming::{Resumed, resume};
