//! What a reader of an event file answers.

use xk_base::Event;

/// What a reader answers when it is asked for the next event.
#[derive(Clone, Copy, Debug, PartialEq, Eq)]
pub enum NextEvent {
    /// The next event of the file.
    Event(Event),
    /// No whole line is held: feed more bytes, or say that the file ends.
    More,
    /// The number of the first bad line, counted from 1. No event follows.
    Bad(u32),
    /// All lines were read, and the file has ended.
    End,
}

/// What a line of an event file is.
#[derive(Clone, Copy, Debug, PartialEq, Eq)]
pub(crate) enum Line {
    /// A good line that is no event.
    Blank,
    Asks(Event),
    Bad,
}
