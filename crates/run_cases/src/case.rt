//! A case: a call of the program, and what it has to leave.

/// The bytes of files come in pieces of so many, and the call of the host, of the output, of the notes and of the store that
/// fails, or 0 for none.
#[derive(Clone, Copy, Debug)]
pub struct Outside {
    pub piece: usize,
    pub host: u64,
    pub out: u64,
    pub notes: u64,
    pub store: u64,
}

/// How often the call is made.
#[derive(Clone, Copy, Debug)]
pub enum Sweep {
    /// Once.
    Once,
    /// Each write to the output fails in turn, until none does.
    EachWrite,
    /// Each call of the store fails in turn, until none does. The last of them that leaves `lines` lines has a number above
    /// `above`.
    EachStoreCall { lines: usize, above: u64 },
}

/// The output that a case wants.
#[derive(Debug, Drop)]
pub enum WantedOut {
    /// Just these bytes.
    Whole(Vec<u8>),
    /// Bytes that end with these.
    Last(Vec<u8>),
    /// Any bytes.
    Any,
}

/// What a case wants.
#[derive(Debug, Drop)]
pub struct Wanted {
    /// The number of the status.
    pub number: u32,
    /// The note of the status.
    pub note: Vec<u8>,
    /// Whether the note stands on the notes.
    pub is_noted: bool,
    pub out: WantedOut,
    /// The number of bytes of the output.
    pub length: Option<usize>,
    /// How often parts stand in the output.
    pub counts: Vec<(usize, Vec<u8>)>,
}

/// A case.
#[derive(Debug, Drop)]
pub struct Case {
    pub words: Vec<String>,
    pub files: Vec<(String, Vec<u8>)>,
    pub outside: Outside,
    pub sweep: Sweep,
    pub wanted: Wanted,
    /// The name under which the output is kept for later cases.
    pub keep: Option<String>,
}
