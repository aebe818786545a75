//! Which process has claimed which interrupt, and which claimed interrupts are pending.
#![tactic(auto)]

mod claims;

pub use claims::{Claim, Claims, Due};
