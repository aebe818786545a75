//! What a command line asks for is done.

ghost use Rattle.std.specs.Prelude.{◌≡◌};
ghost use Rattle.order_words.specs.Arguments.{texts};
ghost use Rattle.xousorders.specs.Calls.{sides_of};
ghost use Rattle.xousorders.specs.CommandLine.{EndsFor};

use crate::event_files::EventFiles;
use crate::outcome::Outcome;
use crate::run::run;
use crate::watching::Watch;
use order_words::{Unread, read_words};
use program_status::Status;
use std::alloc::Global;
use xk_ports::{Host, Sink};

/// Reads the words of a command line, searches what they ask for, and tells what was found. A faulty command line ends with `Usage`, and
/// nothing is written.
pub fn run_words<H: Host, F: EventFiles, K: Sink, W: Watch>(
    alloc: Global,
    all: &[String],
    host: &mut H,
    files: &mut F,
    out: &mut K,
    watch: &mut W,
) -> Outcome
    ensures { let sides = sides_of H.Host K.Sink F.EventFiles host.old host.new out.old out.new files.old files.new in
        EndsFor ⟦<[u8; 32] as Ord>⟧.cmp (texts all.now) sides result }
{
    match read_words(alloc, all) {
        Ok(words) => run(alloc, words, host, files, out, watch),
        Err(Unread::Usage) => Outcome::Ended(Status::Usage),
        Err(Unread::NoMemory) => Outcome::Ended(Status::NoMemory),
    }
}
