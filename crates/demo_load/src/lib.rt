//! The load of `demo`: a large image that is valid, its events, and what is counted of its history.
#![tactic(auto)]

mod code;
mod image;
mod laws;
mod playing;
mod totals;

pub use image::load_image;
pub use laws::{load_has_no_fault, load_meets_no_limit};
pub use playing::play_load;
pub use totals::{Totals, demo_line};

/// The most clients of a load.
pub const CLIENT_LIMIT: u32 = 31;
