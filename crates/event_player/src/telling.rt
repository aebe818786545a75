//! What is told of events.

/// What is told of events that are played.
#[derive(Clone, Copy, Debug, PartialEq, Eq)]
pub enum Telling {
    /// The line of each record as it comes, and a last line.
    Trace,
    /// The bytes for the console alone.
    Run,
    /// The table of the pages of the last state, and a last line.
    Ledger,
    /// Nothing: what becomes of the last state is left to the command.
    Nothing,
}
