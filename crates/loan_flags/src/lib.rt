//! Loans of pages, as page tables and the owner table have them: pages in frames and pages that are
//! out alike. Each call changes the entries and infos of its own pages alone, and makes the ledger
//! that they stand for the ledger after its step.
#![tactic(auto)]

mod free_runs;
mod loan;
mod page_changes;
mod runs;
mod sending;

pub use free_runs::{free_run, least_free_is_the_ledgers};
pub use loan::Loan;
pub use runs::{end_run, give_run, lend_run, orphan_run, pass_run};
pub use sending::may_send;
