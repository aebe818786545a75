//! What is printed of a search: what is seen of a state (the bytes of the console, what the threads of living processes are about, and what
//! others ended with), what endings fail of, and the lines of endings and of reports.
#![tactic(auto)]

mod answer;
mod consoles;
mod endings;
mod exits;
mod failings;
mod failures;
mod found_lines;
mod names;
mod seen;
mod sizes;
mod text;
mod threads;
mod waits;

pub use answer::{put_differ, put_endings, put_extent, put_failures, put_limits, slices_tried};
pub use endings::{Ending, Endings, Look};
pub use failures::{has_failed, is_several};
pub use found_lines::put_found;
pub use seen::put_seen;
