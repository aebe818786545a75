//! The top call: `run_program` of `xous_program`, with the headline proved over it.

ghost use Rattle.std.specs.Prelude.{◌≤◌};
ghost use Rattle.xous_program.specs.Outcome.Ends.{Ends};
ghost use Rattle.xous_program.specs.Outcome.Sides.{call_of, host_side, store_side};
ghost use Rattle.program_status.specs.Notes.{Notes, sink_side};
ghost use Rattle.xous_program.specs.Headline.{Headline};
ghost use Rattle.xous_program.specs.Notes.{note_of};
ghost use Rattle.xous_program.specs.Words.{command_of};

use std::alloc::Global;
use xk_ports::{Host, Sink, SwapStore};
use xous_program::{Ended, run_program};

/// Runs the program with the words of its command line. Images, states and events are read from
/// `host`, what the command tells is appended to `out`, and a text for any status but `Done` to
/// `notes`. The store is prepared once for each run, holds its pages that are out, and is handed
/// back.
pub fn xous_main<H: Host, K: Sink, N: Sink, W: SwapStore>(
    alloc: Global,
    words: &[String],
    host: &mut H,
    out: &mut K,
    notes: &mut N,
    store: W,
) -> Ended<W>
    ensures ends { let call = call_of (host_side H.Host host.old host.new) (sink_side K.Sink out.old out.new)
        (store_side W.SwapStore store result.store) result.status in
        Ends (command_of words.now) call × Headline W.SwapStore (command_of words.now) call result.store }
    ensures noted { Notes (sink_side N.Sink notes.old notes.new) (note_of result.status) }
    ensures store { W.faults store ≤ W.faults result.store }
    ensures host { H.faults host.old ≤ H.faults host.new }
    ensures out { K.faults out.old ≤ K.faults out.new }
    ensures notes { N.faults notes.old ≤ N.faults notes.new }
{
    run_program(alloc, words, host, out, notes, store)
}
