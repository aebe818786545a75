//! The rows of a state of the machine: which machine they stand for, the order in which they stand, and whether the ledger is one that
//! the machine can have. Those on loan by one message have to stand side by side.
#![tactic(auto)]

mod capacity;
mod holders;
mod ledger;
mod living;
mod order;
mod places;
mod processes;
mod runs;
mod search;
mod state;
mod states;

pub use ledger::is_ledger_matched;
pub use living::all_homes_living;
pub use order::are_different;
pub use processes::is_alive;
pub use runs::{Run, are_numbers_apart, loan_runs, orphan_runs};
pub use state::{ClaimRow, MessageRow, OrphanRow, PageRow, ProcRow, ServerRow, State, ThreadRow};
pub use states::{IDLE, JOINING, READY, RECEIVING, WAITING};
