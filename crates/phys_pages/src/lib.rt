//! The bytes of RAM with pages that are lent out, and the table that says whose page is where.
#![tactic(auto)]

mod bytes;
mod infos;
mod owners;
mod ram;

pub use infos::{LoanInfo, PageInfo, Seat};
pub use owners::Owners;
pub use ram::Ram;

#[cfg(test)]
mod tests;
