//! The numbers of a thread's states, as its row has them.

/// It may have a step.
pub const READY: u32 = 0;

/// It waits for a message at a server.
pub const RECEIVING: u32 = 1;

/// It waits for the answer to a message.
pub const WAITING: u32 = 2;

/// It waits for the end of another thread.
pub const JOINING: u32 = 3;

/// It is the handler of a process, and no interrupt is handled.
pub const IDLE: u32 = 4;
