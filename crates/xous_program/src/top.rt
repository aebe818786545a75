//! The program as a call: words in, a status and what the command tells out.

ghost use Rattle.std.specs.Prelude.{◌≤◌, IfSome};
ghost use Rattle.xous_program.specs.Outcome.Does.{DoesCommand};
ghost use Rattle.xous_program.specs.Outcome.Ends.{Ends};
ghost use Rattle.xous_program.specs.Outcome.InRam.{EndsInRam};
ghost use Rattle.xous_program.specs.Outcome.Said.{IsInLimits};
ghost use Rattle.xous_program.specs.Outcome.Sides.{call_of, host_side, store_side};
ghost use Rattle.program_status.specs.Notes.{Notes, sink_side};
ghost use Rattle.xous_program.specs.Notes.{note_of};
ghost use Rattle.xous_program.specs.Words.{command_of};

use crate::commands::check::check_image;
use crate::commands::command::CommandWords;
use crate::commands::convert::convert_image;
use crate::commands::demo::play_demo;
use crate::commands::play::play_image;
use crate::commands::resume::resume_run;
use crate::commands::suspend::suspend_run;
use crate::commands::words::read_words;
use crate::notes::write_note;
use crate::status::{Ended, Status};
use std::alloc::Global;
use xk_ports::{Host, Sink, SwapStore};

/// Does what the words say, and hands the store back.
fn run_words<H: Host, K: Sink, W: SwapStore>(
    alloc: Global,
    words: &[String],
    host: &mut H,
    out: &mut K,
    store: W,
) -> Ended<W>
    ensures ends { let call = call_of (host_side H.Host host.old host.new) (sink_side K.Sink out.old out.new)
        (store_side W.SwapStore store result.store) result.status in Ends (command_of words.now) call }
    ensures in_ram { let call = call_of (host_side H.Host host.old host.new) (sink_side K.Sink out.old out.new)
        (store_side W.SwapStore store result.store) result.status in EndsInRam W.SwapStore (command_of words.now) call result.store }
    ensures limits { IfSome (command_of words.now) IsInLimits }
    ensures store { W.faults store ≤ W.faults result.store }
    ensures host { H.faults host.old ≤ H.faults host.new }
    ensures out { K.faults out.old ≤ K.faults out.new }
{
    match read_words(words) {
        None => Ended {
            status: Status::Usage,
            store,
        },
        Some(CommandWords::Play(play)) => play_image(alloc, play, host, out, store),
        Some(CommandWords::Check(check)) => Ended {
            status: check_image(alloc, check, host, out),
            store,
        },
        Some(CommandWords::Convert(image)) => Ended {
            status: convert_image(alloc, image, host, out),
            store,
        },
        Some(CommandWords::Demo(demo)) => play_demo(alloc, demo, out, store),
        Some(CommandWords::Suspend(suspend)) => suspend_run(alloc, suspend, host, out, store),
        Some(CommandWords::Resume(resume)) => resume_run(alloc, resume, host, out, store),
    }
}

/// Runs the program with the words of its command line, and writes a text for any status but `Done`
/// to `notes`. `xous_main` of `xousim` is this call with the headline in its contract.
pub fn run_program<H: Host, K: Sink, N: Sink, W: SwapStore>(
    alloc: Global,
    words: &[String],
    host: &mut H,
    out: &mut K,
    notes: &mut N,
    store: W,
) -> Ended<W>
    ensures does { let call = call_of (host_side H.Host host.old host.new) (sink_side K.Sink out.old out.new)
        (store_side W.SwapStore store result.store) result.status in DoesCommand W.SwapStore (command_of words.now) call result.store }
    ensures noted { Notes (sink_side N.Sink notes.old notes.new) (note_of result.status) }
    ensures store { W.faults store ≤ W.faults result.store }
    ensures host { H.faults host.old ≤ H.faults host.new }
    ensures out { K.faults out.old ≤ K.faults out.new }
    ensures notes { N.faults notes.old ≤ N.faults notes.new }
{
    let ended = run_words(alloc, words, host, out, store);
    write_note(ended.status, notes);
    ended
}
