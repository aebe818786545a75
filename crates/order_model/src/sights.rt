//! What is seen of endings.

/// What is seen of endings.
#[derive(Clone, Copy, Debug, PartialEq, Eq)]
pub struct Sights {
    /// The bytes of the console.
    pub console: bool,
    /// What processes ended with.
    pub exits: bool,
    /// What threads are about.
    pub waits: bool,
    /// The names of the servers at which they receive or wait.
    pub servers: bool,
}
