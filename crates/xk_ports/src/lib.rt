//! The outside of the program as traits: the files that it reads, the streams that it writes and
//! the store that pages are swapped to, each with a count of its faults.
//!
//! What an object holds is told (`Some`) or isn't (`None`): a clause about content holds where it
//! is told. Each object has a count of faults that never falls and is at most 2^64 - 1, and a call
//! answers `Failed` only where the count rose in that call (or stands at 2^64 - 1).
#![tactic(auto)]

mod asked_files;
mod calls;
mod host;
mod mem_host;
mod mem_sink;
mod mem_store;
mod pages;
mod sink;
mod store;
mod sure_sink;
mod sure_store;

pub use asked_files::AskedFile;
pub use host::{FileSlot, Host};
pub use mem_host::MemHost;
pub use mem_sink::MemSink;
pub use mem_store::MemStore;
pub use pages::Preparation;
pub use sink::{Sink, put_all};
pub use store::{StoreFault, SwapStore};
pub use sure_sink::SureSink;
pub use sure_store::SureStore;
