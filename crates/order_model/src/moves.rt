//! What may come next in an order.

use xk_base::ThreadId;

/// A move of an order.
#[derive(Clone, Copy, Debug, PartialEq, Eq)]
pub enum Move {
    /// A slice of this thread, which has so many steps.
    Slice(ThreadId, u32),
    /// A slice of this thread that is preempted after so many steps, which are fewer than it has.
    Preempted(ThreadId, u32),
    /// The event of this number comes, of those that may come once.
    Once(u32),
}

/// What a search notes of a node whose moves it followed.
#[derive(Clone, Copy, Debug, PartialEq, Eq)]
pub struct Note {
    /// Whether orders end there.
    pub ends: bool,
    /// How many slices were tried from there.
    pub slices: usize,
}
