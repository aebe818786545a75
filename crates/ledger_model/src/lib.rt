//! The ledger of pages and loans: what each page of the machine is, who owns it and who has it on
//! loan. The definitions stand in `specs/`; the functions here are laws over them, and a plain
//! program that computes them on small ledgers.
#![tactic(auto)]

pub mod lawful_laws;
pub mod least_run_laws;
pub mod listing_laws;
pub mod loan_laws;
pub mod page_laws;
pub mod place_laws;
pub mod reach_laws;
pub mod small;
pub mod step_laws;
pub mod whole_laws;
