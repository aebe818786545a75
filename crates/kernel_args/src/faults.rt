//! Why an image is refused.

use thiserror::Error;

/// The file has fewer than 28 bytes.
pub const TOO_SHORT: u8 = 1;
/// The file doesn't begin with a tag named `XArg` of five words.
pub const NOT_XARG: u8 = 2;
/// The version is neither 1 nor 2.
pub const BAD_VERSION: u8 = 3;
/// The row of tags is below seven words or passes the end of the file, or a tag passes the end of
/// the row.
pub const BAD_TOTAL: u8 = 4;
/// The check number of a tag isn't that of its contents.
pub const BAD_CHECK: u8 = 5;
/// RAM isn't made of whole pages, is empty or above 64 MiB, or passes 0xF000_0000.
pub const BAD_RAM: u8 = 6;
/// There is no process.
pub const NO_PROCESS: u8 = 7;
/// There are more than 32 processes in version 1, or more than 64 in version 2.
pub const TOO_MANY_PROCESSES: u8 = 8;
/// A process hasn't one to 32 whole sections, its check word is above 16 bits, or a section has an
/// unknown flag.
pub const BAD_INI: u8 = 9;
/// The entries of a `PNam` don't fill its contents exactly.
pub const BAD_NAMES: u8 = 10;
/// A `SwpS` isn't one word, has more than 16,384 slots, or is the second.
pub const BAD_SLOTS: u8 = 19;

/// A fault of an image.
#[derive(Clone, Copy, Debug, PartialEq, Eq, Error)]
#[error("image fault {what} at {at}")]
pub struct ArgFault {
    /// The number of the fault.
    pub what: u8,
    /// The offset of the fault in the file in bytes.
    pub at: u32,
}

/// Why no arguments were read.
#[derive(Clone, Copy, Debug, PartialEq, Eq, Error)]
pub enum ArgsError {
    /// The image has this fault.
    #[error("{0}")]
    Fault(ArgFault),
    /// There was no memory for the arguments.
    #[error("no memory")]
    NoMemory,
}
