//! The lines of a transcript: one for each record of a run, and a last one.
//!
//! Numbers are decimal and words are eight lower-case hexadecimal digits. No line takes memory.
#![tactic(auto)]

mod digits;
mod lines;
mod pieces;

pub use digits::word_digits;
pub use lines::{EndWord, end_line, line};
