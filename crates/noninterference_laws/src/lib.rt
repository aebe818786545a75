//! Integrity and confidentiality: what a step or an event leaves of all that is another's, and what a group of processes keeps inside,
//! which nobody sees. Inside are the registers and the pcs of its threads, its reservation, and the bytes of the pages that nobody else
//! can load. The functions have no code; their contracts are the laws.
#![tactic(auto)]

mod inside;
mod integrity;
mod steps;
mod unwinding;

pub use inside::{
    handed_pages_are_enough, inside_is_unseen, registers_and_own_bytes_are_inside,
    runs_keep_the_inside,
};
pub use integrity::{instruction_leaves_others, page_is_stored_by_one_alone};
pub use steps::{all_keep_others, call_keeps_others, claimant_keeps_its_thread};
pub use unwinding::{secret_sums_are_exchanged, unwound_groups_tell_alike};
