//! A message kernel with the behaviour of Xous on a modelled RISC-V machine: it takes a boot image
//! and a file of events, and writes the transcript.
#![tactic(auto)]

#[cfg(test)]
mod tests;
mod top;

pub use host_io::{ErrSink, FileHost, FileStore, StdSink};
use host_io::{ProgramStore, RealDisk};
use program_status::{all_words, hold_descriptors};
use std::process::ExitCode;
pub use top::xous_main;
use xk_ports::Sink;
use xous_program::{Ended, Status, write_note};

/// Ends before there are words to look at, with a note.
fn end<N: Sink>(status: Status, notes: &mut N) -> ExitCode {
    write_note(status, notes);
    ExitCode::from(status.number())
}

fn main(rt: HostRuntime) -> ExitCode {
    let alloc = rt.alloc();
    let mut notes = ErrSink::new(rt.stderr());
    let Ok(_held) = hold_descriptors(&rt) else {
        return end(Status::ReadFault, &mut notes);
    };
    let words = match all_words(&rt) {
        Ok(words) => words,
        Err(status) => return end(status, &mut notes),
    };
    let mut host = FileHost::new(&rt);
    let mut out = StdSink::new(rt.stdout());
    let disk = RealDisk::new(&rt);
    let store = ProgramStore::new(alloc, &disk);
    let Ended { status, store: _ } = xous_main(
        alloc,
        words.as_slice(),
        &mut host,
        &mut out,
        &mut notes,
        store,
    );
    ExitCode::from(status.number())
}
