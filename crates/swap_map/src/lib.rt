//! Pages that go out to the swap store and come back. A page keeps its rights and its loan: its
//! home's entry and its holder's name its new seat together, and so does the owner table.
#![tactic(auto)]

mod exchanges;
mod moves;

pub use exchanges::{bring, evict};
