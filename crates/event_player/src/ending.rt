//! Why a history ends.

/// Why a history ends.
#[derive(Clone, Copy, Debug, PartialEq, Eq)]
pub enum Ending {
    /// All events were played.
    Played,
    /// A tick still had steps to do, some thread was ready, and the steps done met the limit.
    LimitMet,
    /// The line of this number is the first bad line of the event file.
    BadLine(u32),
}
