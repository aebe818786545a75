//! Rights, accesses and loans of pages.

/// What the owner of a page may do beside reading it.
#[derive(Clone, Copy, Debug, PartialEq, Eq, Hash)]
pub struct Right {
    /// It may be written.
    pub w: bool,
    /// It may be executed.
    pub x: bool,
}

/// A kind of access to memory.
#[derive(Clone, Copy, Debug, PartialEq, Eq, Hash)]
pub enum Access {
    Fetch,
    Load,
    Store,
}

/// How many bytes a load or store moves: 1, 2 or 4.
#[derive(Clone, Copy, Debug, PartialEq, Eq, Hash)]
pub enum Width {
    Byte,
    Half,
    Word,
}

/// How a page is on loan. A shared page can be written by nobody; an exclusive one is reached by
/// its holder alone.
#[derive(Clone, Copy, Debug, PartialEq, Eq, Hash)]
pub enum LoanKind {
    Shared,
    Exclusive,
}

/// What a store did.
#[derive(Clone, Copy, Debug, PartialEq, Eq, Hash)]
pub enum Stored {
    /// The bytes stand in memory.
    Done,
    /// It went to the console's page, at this offset in bytes.
    Device(u32),
    /// The process may not store there.
    Fault,
}
