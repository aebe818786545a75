//! Why there is no plan.

use kernel_args::ArgFault;
use thiserror::Error;

/// A section has a page outside the Image window.
pub const SECTION_OUTSIDE: u8 = 11;
/// The address of a section isn't a multiple of 4096.
pub const SECTION_MISALIGNED: u8 = 12;
/// A section has a page that an earlier section of the process has.
pub const SECTIONS_OVERLAP: u8 = 13;
/// The bytes of the sections begin in the row of tags or pass the end of the file.
pub const LOAD_OUTSIDE: u8 = 14;
/// The entry isn't a multiple of 4, or doesn't lie in an executable section.
pub const ENTRY_OUTSIDE: u8 = 15;
/// RAM and swap store haven't room for the page tables and the first pages.
pub const RAM_TOO_SMALL: u8 = 16;
/// The file has more than 64 MiB.
pub const TOO_LONG: u8 = 17;
/// The check word of a process isn't that of the bytes of its sections.
pub const BAD_LOAD: u8 = 18;

/// Why there is no plan.
#[derive(Clone, Copy, Debug, PartialEq, Eq, Error)]
pub enum PlanError {
    /// The plan has this fault. It is at a pid, or at 0.
    #[error("{0}")]
    Fault(ArgFault),
    /// There was no memory for the plan.
    #[error("no memory")]
    NoMemory,
}
