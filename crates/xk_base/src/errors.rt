//! The error numbers of system calls, and the two faults of the host.

ghost use Rattle.std.specs.Prelude.{◌≡◌};
ghost use Rattle.xk_base.specs.Calls.Errors.{code_of};

/// There was no memory for a call. It is the one answer without a cause in a contract.
#[derive(Clone, Copy, Debug, PartialEq, Eq, Hash)]
pub struct NoMemory;

/// Something outside failed. The object that answers it has counted the fault.
#[derive(Clone, Copy, Debug, PartialEq, Eq, Hash)]
pub struct Failed;

/// Why a system call is refused.
#[derive(Clone, Copy, Debug, PartialEq, Eq, Hash)]
pub enum XousError {
    BadAlignment = 1,
    BadAddress = 2,
    OutOfMemory = 3,
    MemoryInUse = 4,
    InterruptNotFound = 5,
    InterruptInUse = 6,
    ServerExists = 8,
    ServerNotFound = 9,
    ServerQueueFull = 15,
    ThreadNotAvailable = 16,
    UnhandledSyscall = 17,
    InvalidSyscall = 18,
    ShareViolation = 19,
    InvalidThread = 20,
    AccessDenied = 23,
    DoubleFree = 25,
    InvalidLimit = 27,
}

impl XousError {
    /// The number of the error: the second word of a refusal.
    pub fn code(&self) -> u32
        ensures { result ≡ code_of self.now }
    {
        *self as u32
    }
}
