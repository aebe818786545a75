//! The messages of each server: those that are queued, and those that it holds, with their loans.
#![tactic(auto)]

mod held;
mod links;
mod messages;
mod queues;
mod ring;
mod walks;

pub use held::Held;
pub use messages::Messages;
pub use queues::Queues;
