//! The arguments of a kernel image: the row of tags at the front of the file. They are read with
//! the first fault that the image has, and written.
#![tactic(auto)]

mod appending;
mod args;
mod check_number;
mod check_tables;
mod converting;
mod faults;
mod found;
mod header;
mod laws;
mod loads;
mod names;
mod process;
mod reading;
mod slots;
mod tag;
mod writing;

pub use args::{Args, ProcArgs, ProcName, Section};
pub use check_number::crc_x25;
pub use converting::{convert, converted_len};
pub use faults::{
    ArgFault, ArgsError, BAD_CHECK, BAD_INI, BAD_NAMES, BAD_RAM, BAD_SLOTS, BAD_TOTAL, BAD_VERSION,
    NO_PROCESS, NOT_XARG, TOO_MANY_PROCESSES, TOO_SHORT,
};
pub use laws::{converted_is_spelled, spelled_once_or_faulty};
pub use loads::{file_size, file_sizes, is_zero_filled, loaded_bytes};
pub use reading::read_args;
pub use writing::{writable, write_args};
