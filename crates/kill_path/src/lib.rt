//! The ends of servers and of processes: what they do to messages, loans and threads.
#![tactic(auto)]

mod answered;
mod closing;
mod closing_all;
mod destroying;
mod killing;
mod leaving;
mod telling;

pub use closing_all::close_all;
pub use destroying::destroy;
pub use killing::kill;
