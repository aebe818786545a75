//! The state of a machine is spelled, part by part, into a sheet: a run that goes on from these bytes is one that was never cut.
#![tactic(auto)]

mod claims;
mod numbers;
mod pages;
mod places;
mod processes;
mod saving;
mod servers;
mod threads;
mod used;

pub use numbers::Numbers;
pub use places::{PLACES_OF_PROCESS, place_at};
pub use saving::save;
