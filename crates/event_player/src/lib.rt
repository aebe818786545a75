//! The events of a file are played on a kernel, and what a command tells of them is written as their records come: the
//! transcript, the bytes for the console, or the table of the last state's pages.
#![tactic(auto)]

mod ending;
mod event_file;
mod events;
mod gathering;
mod table;
mod telling;
mod transcript;

pub use ending::Ending;
pub use event_file::{RunFault, play_file};
pub use telling::Telling;
pub use transcript::write_closing;
