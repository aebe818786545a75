//! The memory of the machine: a lawful ledger of pages and loans, in the bytes of RAM.
#![tactic(auto)]

pub mod laws;
mod memory;

pub use memory::{BootError, BootFault, KnownUser, Memory, User};
pub use page_views::{Here, KnownPages};
