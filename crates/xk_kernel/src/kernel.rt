//! The kernel.

mod boot;
mod calls;
mod deaths;
mod events;
mod interrupt_calls;
mod interrupts;
mod memory_calls;
mod message_calls;
mod quiet;
mod readers;
mod resuming;
mod ringing;
mod running;
mod saving;
mod server_calls;
mod stepping;
#[cfg(test)]
mod tests;
mod thread_calls;
mod threads;

use irq_claims::Claims;
use msg_queue::Queues;
use process_table::Processes;
use server_table::Servers;
use thread_table::Threads;
use timer_device::Timer;
use vm_memory::Memory;
use xk_base::{Log, ThreadId};
use xk_ports::SwapStore;

/// What a step did.
#[derive(Clone, Copy, Debug, PartialEq, Eq)]
pub enum Stepped {
    /// The step was done.
    Did,
    /// No thread is ready.
    Idle,
}

/// The store failed as a page was brought in or put out; it has counted it. The kernel is closed
/// then, and answers no other call.
#[derive(Clone, Copy, Debug, PartialEq, Eq)]
pub struct SwapFault;

/// The processes of a boot image with their threads and their memory, whose turn it is, and the
/// records of the last step or event. All memory of a run is taken at boot.
pub struct Kernel<W: SwapStore> {
    mem: Memory<W>,
    threads: Threads,
    procs: Processes,
    servers: Servers,
    queues: Queues,
    claims: Claims,
    log: Log,
    // Whose turn it is.
    cursor: ThreadId,
    // The number that the next accepted message gets.
    next: u32,
    // Steps done.
    steps: u32,
    // It raises its interrupt at the end of the step whose number is its compare value.
    timer: Timer,
    // The thread that has reserved an address, and that address.
    reserved: Option<(ThreadId, u32)>,
}
