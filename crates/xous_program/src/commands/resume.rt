//! `resume`: the events of a file are played on from a state that was written.

ghost use Rattle.std.specs.Prelude.{◌≤◌};
ghost use Rattle.xous_program.specs.Outcome.InRam.{RunsInRam};
ghost use Rattle.xous_program.specs.Outcome.Resumes.{EndsResume};
ghost use Rattle.xous_program.specs.Outcome.Sides.{call_of, host_side, store_side};
ghost use Rattle.program_status.specs.Notes.{sink_side};
ghost use Rattle.xous_program.specs.Words.{Resumes, resume_in};

use crate::commands::command::{PlayWords, ResumeWords};
use crate::commands::play::play_events;
use crate::commands::states::continue_run;
use crate::status::Ended;
use event_player::Telling;
use std::alloc::Global;
use xk_ports::{Host, Sink, SwapStore};

/// Plays the events of a file from the state of another one, tells of them what `trace` does, and hands
/// the store back.
pub fn resume_run<H: Host, K: Sink, W: SwapStore>(
    alloc: Global,
    resume: ResumeWords,
    host: &mut H,
    out: &mut K,
    store: W,
) -> Ended<W>
    ensures ends { let call = call_of (host_side H.Host host.old host.new) (sink_side K.Sink out.old out.new)
        (store_side W.SwapStore store result.store) result.status in EndsResume (resume_in resume.entry) call }
    ensures in_ram { let call = call_of (host_side H.Host host.old host.new) (sink_side K.Sink out.old out.new)
        (store_side W.SwapStore store result.store) result.status in
        RunsInRam W.SwapStore (Resumes (resume_in resume.entry)) call result.store }
    ensures store { W.faults store ≤ W.faults result.store }
    ensures host { H.faults host.old ≤ H.faults host.new }
    ensures out { K.faults out.old ≤ K.faults out.new }
{
    match continue_run(alloc, host, resume, store) {
        Ok(mut kernel) => {
            // A limit below the steps that were done is met where the run goes on.
            let play = PlayWords {
                tells: Telling::Trace,
                image: resume.state,
                events: resume.events,
                limit: resume.limit.max(kernel.steps()),
                slots: Some(resume.slots),
                store: None,
            };
            let status = play_events(&mut kernel, host, play, out);
            Ended {
                status,
                store: kernel.close(),
            }
        }
        Err(ended) => ended,
    }
}
