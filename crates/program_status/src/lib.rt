//! What the programs share: how a call ends, its note, the plan of an image, and what they begin with.
#![tactic(auto)]

mod faults;
mod notes;
mod planning;
mod starting;
mod status;

pub use faults::{BAD_SPLIT, fault_name};
pub use notes::write_note;
pub use planning::{Planned, plan_bytes};
pub use starting::{all_words, hold_descriptors};
pub use status::Status;
