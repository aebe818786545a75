//! What happens to the machine from outside.

use crate::ids::{Pid, Tid};

/// What happens from outside: an event of an event file.
#[derive(Clone, Copy, Debug, PartialEq, Eq)]
pub enum Event {
    /// At most this many steps, and then the turn ends.
    Tick(u32),
    /// The turn goes to this thread.
    Pick(Pid, Tid),
    /// The interrupt with this number, 0 to 31, comes.
    Irq(u8),
    /// The process ends.
    Kill(Pid),
}
