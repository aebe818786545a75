//! The events of an event file, read from pieces of its bytes, and written as its lines. The reader takes no memory.
#![tactic(auto)]

mod event;
mod laws;
mod line;
mod numbers;
mod reader;
mod words;
mod writing;

pub use event::NextEvent;
pub use laws::{
    bad_line_again, end_of_file, events_in_order, first_bad_line, joined_files, no_blank_left,
    whole_lines_answered,
};
pub use numbers::read_digits;
pub use reader::EventReader;
pub use writing::{event_file, lines_are_read};
pub use xk_base::Event;
