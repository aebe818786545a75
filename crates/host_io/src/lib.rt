//! What a program meets outside of it: the files and streams of the machine that runs it, a store of pages in
//! memory or in a file, files that are read to their ends, and lines of text.
#![tactic(auto)]

mod adapters;
mod file_store;
mod page_file;
mod program_store;
mod reading;
pub mod text;

pub use adapters::{ErrSink, FileHost, StdSink, WriterSink};
pub use file_store::FileStore;
pub use page_file::{Disk, DiskFile, PageFile, RealDisk};
pub use program_store::ProgramStore;
pub use reading::{Content, PIECE, ReadError, read_file};
