//! The words of the command line, and what each command does.

pub mod booting;
pub mod check;
pub mod command;
pub mod convert;
pub mod demo;
mod numbers;
pub mod play;
pub mod resume;
pub mod states;
mod summary;
pub mod suspend;
pub mod words;
