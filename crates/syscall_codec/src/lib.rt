//! System calls and their replies as eight words, in registers a0 to a7, and back: the number of each call, what its words are, and
//! which call eight words ask for.
#![tactic(auto)]

mod calls;
mod encode;
mod flags;
mod numbers;
mod read;
mod replies;

pub use calls::{Call, can_wait};
pub use encode::call_words;
pub use flags::MapFlags;
pub use read::read_call;
pub use replies::{Reply, reply_words};
