//! Loans over whole runs of the abstract machine: the fate of a number in each step, under the theorem `each_loan_has_its_span` of
//! `laws`. The functions have no code; their contracts are the laws.
#![tactic(auto)]

mod fate_laws;
mod loans;

pub use fate_laws::every_number_has_its_fate;
pub use loans::{left_number_keeps_its_loan, number_has_one_loan};
