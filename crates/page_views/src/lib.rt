//! What stands at a place, what is asked of the places of a run, where an access leads, and which pages are known: what a memory tells,
//! without the memory.
#![tactic(auto)]

mod known;
mod numbers;
mod places;
mod run_tests;
mod sides;
mod targets;

pub use known::{KnownPage, KnownPages};
pub use numbers::{read_number, write_number};
pub use places::Here;
pub use run_tests::{RunTest, fits};
pub use sides::here_by_side;
pub use targets::Target;
