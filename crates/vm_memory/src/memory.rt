//! The memory of the machine.

mod access;
mod boot;
mod changes;
mod exchange;
mod known;
mod lending;
mod making;
mod pages;
mod readers;
mod removing;
mod run_tests;
mod user;

pub use known::KnownUser;
use phys_pages::{Owners, Ram};
use thiserror::Error;
pub use user::User;
use xk_ports::SwapStore;

/// The pages of all processes, with their rights and loans. Rights stand in the entries of the
/// page tables, which are bytes of RAM; a page's home and loan stand in the owner table beside its
/// seat, which is a frame of RAM or a slot of the store.
pub struct Memory<W: SwapStore> {
    ram: Ram,
    owners: Owners,
    store: W,
    // A call has answered `Failed`, or an exchange of pages is under way.
    failed: bool,
    // Processes that it was made for; their pids are 2 and up.
    procs: u32,
    // Slots of the store that it uses, from 0 on.
    slots: u32,
    // Pages and orphans, the console not counted.
    pages: u32,
    // The frame where the search for a page to put out begins. Where there are more pages than stand
    // in frames, and the frame before it is free, no other frame is.
    hand: u32,
}

/// Why a memory isn't made.
#[derive(Clone, Copy, Debug, PartialEq, Eq, Error)]
pub enum BootError {
    /// There was no memory.
    #[error("no memory for the machine")]
    NoMemory,
    /// The store failed; it has counted it.
    #[error("the store failed")]
    SwapFault,
}

/// A boot that failed hands the store back.
#[derive(Debug, Drop)]
pub struct BootFault<W> {
    pub why: BootError,
    pub store: W,
}

#[cfg(test)]
mod tests;
