//! How a call of the program ends.

pub use program_status::Status;

/// How a call ended, and the store that it was given.
#[derive(Debug)]
pub struct Ended<W> {
    pub status: Status,
    pub store: W,
}
