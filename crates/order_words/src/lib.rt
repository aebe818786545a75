//! The grammar of the command line of `xousorders`: what its words ask for, or that they are faulty.
#![tactic(auto)]

mod arguments;
mod asked;
mod failing_words;
mod said;
mod sight_words;
mod words;

pub use arguments::Unread;
pub use words::{Words, read_words};
