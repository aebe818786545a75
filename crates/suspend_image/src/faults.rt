//! Why a state file is refused.

ghost use Rattle.std.specs.Prelude.{◌≡◌};
ghost use Rattle.suspend_image.specs.declared.faults.StateError.TheVariants.{NoMemory as OutOfMemory};

use kernel_args::ArgFault;
use thiserror::Error;
use xk_base::NoMemory;

/// The file has fewer than 16 bytes, or doesn't begin with `XousSt01`.
pub const NOT_STATE: u8 = 20;
/// The file isn't as long as it says.
pub const STATE_LENGTH: u8 = 21;
/// The check number isn't that of the bytes behind it.
pub const STATE_CHECK: u8 = 22;
/// A word breaks the form, or bytes stand after the end.
pub const STATE_FORM: u8 = 23;
/// The machine can't be in the state: the first part of its invariant that fails is the place.
pub const STATE_UNMATCHED: u8 = 24;

/// Why no state was read.
#[derive(Clone, Copy, Debug, PartialEq, Eq, Error)]
pub enum StateError {
    /// The file has this fault.
    #[error("{0}")]
    Fault(ArgFault),
    /// There was no memory for the state.
    #[error("no memory")]
    NoMemory,
}

impl From<NoMemory> for StateError {
    ghost from_gives = { λ _ e. e ≡ OutOfMemory };

    fn from(_e: NoMemory) -> StateError {
        StateError::NoMemory
    }
}
