//! All orders of the threads of an image are searched, and each different ending is told.
#![tactic(auto)]

mod command_line;
mod endings;
mod event_files;
mod files;
mod halt;
mod image;
mod levels;
mod limits;
mod notes;
mod outcome;
mod run;
mod search;
mod view;
mod watching;

use command_line::run_words;
use event_files::DiskFiles;
use host_io::{ErrSink, FileHost, StdSink};
use notes::write_note;
use outcome::Outcome;
use program_status::{Status, all_words, hold_descriptors};
use std::io::IsTerminal;
use std::process::ExitCode;
use watching::Teller;
use xk_ports::Sink;

/// Ends with the note of an outcome.
fn end<N: Sink>(outcome: Outcome, notes: &mut N) -> ExitCode {
    write_note(outcome, notes);
    ExitCode::from(outcome.number())
}

fn main(rt: HostRuntime) -> ExitCode {
    let alloc = rt.alloc();
    let mut out = StdSink::new(rt.stdout());
    let mut notes = ErrSink::new(rt.stderr());
    let Ok(_held) = hold_descriptors(&rt) else {
        return end(Outcome::Ended(Status::ReadFault), &mut notes);
    };
    let is_seen = rt.stderr().is_terminal();
    let mut host = FileHost::new(&rt);
    let mut files = DiskFiles::new(&rt, alloc);
    let outcome = match all_words(&rt) {
        Ok(all) => {
            let mut teller = Teller::new(&rt, &mut notes, is_seen);
            run_words(alloc, &all, &mut host, &mut files, &mut out, &mut teller)
        }
        Err(status) => Outcome::Ended(status),
    };
    end(outcome, &mut notes)
}
