//! Whether the machine can be in a state: the parts of its invariant in their order, each decided from the
//! rows.
#![tactic(auto)]

mod claims;
mod heaps;
mod lends;
mod messages;
mod parts;
mod processes;
mod senders;
mod servers;
mod threads;
mod waits;

pub use parts::{Part, first_unmatched};
