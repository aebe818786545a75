//! The state of the machine as bytes: what a suspended run leaves in a file, and what it is resumed
//! from.
#![tactic(auto)]

mod faults;
mod laws;
mod reading;
mod writing;

pub use faults::{NOT_STATE, STATE_CHECK, STATE_FORM, STATE_LENGTH, STATE_UNMATCHED, StateError};
pub use laws::{
    matched_or_faulty, saved_piece_by_piece, saved_state_fits, saved_state_is_spelled,
    spelled_file_is_saved, spelled_once_or_faulty,
};
pub use reading::read_state;
pub use snapshot_rows::{
    ClaimRow, MessageRow, OrphanRow, PageRow, ProcRow, ServerRow, State, ThreadRow,
};
pub use writing::rows::{
    write_claim, write_message, write_orphan_words, write_page_words, write_thread,
};
pub use writing::sheet::Sheet;
pub use writing::{begin_state, finish_state};

#[cfg(test)]
mod tests;
