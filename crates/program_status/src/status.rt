//! How a call ends.

ghost use Rattle.std.specs.Prelude.{◌≡◌};
ghost use Rattle.program_status.specs.Status.{number_of};

use kernel_args::ArgFault;
use std::alloc::AllocError;

/// How a call ends.
#[derive(Clone, Copy, Debug, PartialEq, Eq)]
pub enum Status {
    /// All was done.
    Done,
    /// The words have no stated form.
    Usage,
    /// A file couldn't be read.
    ReadFault,
    /// The output couldn't be written.
    WriteFault,
    /// The image has this first fault.
    ImageFault(ArgFault),
    /// The event file has this first bad line.
    EventFault(u32),
    /// The run met this step limit.
    StepLimit(u32),
    /// The swap store failed.
    SwapFault,
    /// There was no memory.
    NoMemory,
}

impl Status {
    /// The number with which the program ends.
    pub fn number(&self) -> u8
        ensures { result ≡ number_of self.now }
    {
        match self {
            Status::Done => 0,
            Status::Usage => 2,
            Status::ReadFault => 3,
            Status::WriteFault => 4,
            Status::ImageFault(_) => 5,
            Status::EventFault(_) => 6,
            Status::StepLimit(_) => 7,
            Status::SwapFault => 8,
            Status::NoMemory => 9,
        }
    }
}

impl From<AllocError> for Status {
    ghost use Rattle.std.specs.Prelude.{◌≡◌};
    ghost use Rattle.program_status.specs.declared.status.Status.TheVariants.{NoMemory};

    ghost from_gives = { λ _ e. e ≡ NoMemory };

    fn from(_error: AllocError) -> Status {
        Status::NoMemory
    }
}
