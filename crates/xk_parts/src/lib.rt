//! The parts of a kernel: the machine that they stand for, when they are sound, and the small calls on them that all who serve a
//! thread share.
#![tactic(auto)]

mod seats;
mod threads;

pub use seats::{Seated, own_server};
pub use threads::{answer, pass, wait};
