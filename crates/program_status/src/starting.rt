//! What a program does before it looks at its words.

use crate::status::Status;
use std::alloc::Global;
use std::io::ErrorKind;
use std::rt::{Env, Files};
use std::{env, fs, io};

/// Opens three files, which stay open as long as the answer lives.
///
/// A file that is opened takes the least descriptor that is free, which is that of a standard stream
/// where the program was started without it. While these three are open no later file takes one of
/// 0 to 2, so no file gets what is written to a stream. They can't be written to: a write to a
/// stream that is closed fails as it would without them.
pub fn hold_descriptors<R: Files>(rt: &R) -> io::Result<(R::File, R::File, R::File)> {
    Ok((fs::open(rt, "/")?, fs::open(rt, "/")?, fs::open(rt, "/")?))
}

/// The words of the command line behind the program's name, or why there are none: `Usage` where one
/// isn't UTF-8, or `NoMemory`.
pub fn all_words<R: Env + AllocGlobal>(rt: &R) -> Result<Vec<String>, Status> {
    match env::args(rt) {
        Ok(args) => match args.skip(1).collect(rt.alloc()) {
            Ok(words) => Ok(words),
            Err(_) => Err(Status::NoMemory),
        },
        Err(error) if error.kind() == ErrorKind::OutOfMemory => Err(Status::NoMemory),
        // A word isn't UTF-8.
        Err(_) => Err(Status::Usage),
    }
}
