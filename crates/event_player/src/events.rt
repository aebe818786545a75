//! Events are played, and what a command tells of their records is gathered as they come.

ghost use Rattle.std.specs.Prelude.{◌≡◌, ◌≤◌, ◌<◌, ℕ, true, List, IfOk, OnOk, OnErr};
ghost use Rattle.machine_model.specs.State.Machine.{Machine};
ghost use Rattle.vm_memory.specs.Bytes.{none_out};
ghost use Rattle.xk_base.specs.declared.limits.TheConstants.{STEP_LIMIT};
ghost use Rattle.xk_base.specs.Outside.{Rose};
ghost use Rattle.xk_kernel.specs.Moments.{Stood};
ghost use Rattle.xk_kernel.specs.Sound.{IsSound, IsUsable, Keeps};
ghost use Rattle.xk_kernel.specs.State.{machine_of};
ghost use Rattle.xk_kernel.specs.declared.kernel.Kernel.{Kernel};
ghost use Rattle.xk_kernel.specs.Stepping.{event_done};
ghost use Rattle.event_player.specs.Gathering.{Gathers, GathersPart, Text, text};
ghost use Rattle.event_player.specs.Playing.{Advances, Goes, HasPlayed, Plays, PlaysOn, run_from};
ghost use Rattle.event_player.specs.Reading.{Answers, AnswersAll};
ghost use Rattle.event_player.specs.Serving.{Serves, of_events};
ghost use Rattle.event_player.specs.Standing.{stand};
ghost use Rattle.event_player.specs.Telling.{told};

use crate::ending::Ending;
use crate::gathering::Held;
use crate::telling::Telling;
use crate::transcript::gather_records;
use event_text::{Event, EventReader, NextEvent};
use xk_base::Failed;
use xk_kernel::{Kernel, Stepped, SwapFault};
use xk_ports::{Sink, SwapStore};

/// Why a run over events stopped early.
#[derive(Clone, Copy, Debug, PartialEq, Eq)]
pub enum PlayFault {
    /// The output couldn't be written.
    Write,
    /// The swap store failed.
    Swap,
}

/// Plays the next step of a tick of which so many are left, below the limit, and answers how many are left
/// then: none where no thread is Ready.
fn play_step<K: Sink, W: SwapStore>(
    kernel: &mut Kernel<W>,
    left: u32,
    tells: Telling,
    limit: u32,
    out: &mut K,
    held: &mut Held,
) -> Result<u32, PlayFault>
    requires sound { IsSound W.SwapStore kernel.old }
    requires usable { IsUsable kernel.old }
    requires limit { limit ≤ STEP_LIMIT }
    requires below { (machine_of W.held kernel.old).steps < limit }
    requires some { 0 < left }
    ensures on { let old = stand W.SwapStore kernel.old (text (K.written out.old) held.old.items) in
        let new = stand W.SwapStore kernel.new (text (K.written out.new) held.new.items) in
        PlaysOn (Stood W.SwapStore kernel.old) (Stood W.SwapStore kernel.new) tells left limit old new result }
    ensures fewer { IfOk result (λ rest. rest < left) }
    ensures serves { Serves W.SwapStore K.Sink of_events limit kernel.old kernel.new out.old out.new result }
{
    match kernel.step() {
        Ok(Stepped::Did) => {}
        Ok(Stepped::Idle) => return Ok(0),
        Err(SwapFault) => return Err(PlayFault::Swap),
    }
    let Ok(()) = gather_records(tells, kernel.last(), out, held) else {
        return Err(PlayFault::Write);
    };
    Ok(left - 1)
}

/// Plays the next steps of a tick of which so many are left, below the limit, and answers how many are left
/// then: a run of quiet ones, and then the one that isn't quiet, unless the tick or the limit ends the run.
fn play_run<K: Sink, W: SwapStore>(
    kernel: &mut Kernel<W>,
    left: u32,
    tells: Telling,
    limit: u32,
    out: &mut K,
    held: &mut Held,
) -> Result<u32, PlayFault>
    requires sound { IsSound W.SwapStore kernel.old }
    requires usable { IsUsable kernel.old }
    requires limit { limit ≤ STEP_LIMIT }
    requires below { (machine_of W.held kernel.old).steps < limit }
    requires some { 0 < left }
    ensures on { let old = stand W.SwapStore kernel.old (text (K.written out.old) held.old.items) in
        let new = stand W.SwapStore kernel.new (text (K.written out.new) held.new.items) in
        PlaysOn (Stood W.SwapStore kernel.old) (Stood W.SwapStore kernel.new) tells left limit old new result }
    ensures fewer { IfOk result (λ rest. rest < left) }
    ensures serves { Serves W.SwapStore K.Sink of_events limit kernel.old kernel.new out.old out.new result }
{
    let most = left.min(limit - kernel.steps());
    let Ok(done) = kernel.run_quiet(most) else {
        return Err(PlayFault::Swap);
    };
    if done == most {
        return Ok(left - done);
    }
    play_step(kernel, left - done, tells, limit, out, held)
}

/// Plays a tick of at most `count` steps. Where the store fails in a step, what is told of the steps
/// before it was gathered.
fn play_tick<K: Sink, W: SwapStore>(
    kernel: &mut Kernel<W>,
    count: u32,
    tells: Telling,
    limit: u32,
    out: &mut K,
    held: &mut Held,
) -> Result<Ending, PlayFault>
    requires sound { IsSound W.SwapStore kernel.old }
    requires usable { IsUsable kernel.old }
    requires limit { limit ≤ STEP_LIMIT }
    requires within { (machine_of W.held kernel.old).steps ≤ limit }
    ensures plays { let old = stand W.SwapStore kernel.old (text (K.written out.old) held.old.items) in
        let new = stand W.SwapStore kernel.new (text (K.written out.new) held.new.items) in
        Plays (Stood W.SwapStore kernel.old) tells (Event.Tick count) limit old new result }
    ensures serves { Serves W.SwapStore K.Sink of_events limit kernel.old kernel.new out.old out.new result }
{
    let mut left = count;
    'runs: while left > 0 {
        if kernel.steps() == limit {
            if kernel.ready() {
                return Ok(Ending::LimitMet);
            }
            kernel.end_turn();
            return Ok(Ending::Played);
        }
        left = play_run(kernel, left, tells, limit, out, held)?;
    }
    kernel.end_turn();
    Ok(Ending::Played)
}

/// Plays an event that has no steps.
fn play_at_once<K: Sink, W: SwapStore>(
    kernel: &mut Kernel<W>,
    event: Event,
    tells: Telling,
    out: &mut K,
    held: &mut Held,
) -> Result<(), Failed>
    requires sound { IsSound W.SwapStore kernel.old }
    requires usable { IsUsable kernel.old }
    ensures machine { machine_of W.held kernel.new ≡ (event_done event (machine_of W.held kernel.old)).machine }
    ensures gathered { let done = event_done event (machine_of W.held kernel.old) in
        OnOk result (Gathers (text (K.written out.old) held.old.items)
        (text (K.written out.new) held.new.items) (told tells done.records)) }
    ensures front { let done = event_done event (machine_of W.held kernel.old) in
        OnErr result (GathersPart (text (K.written out.old) held.old.items)
        (text (K.written out.new) held.new.items) (told tells done.records)) }
    ensures near { none_out kernel.old.mem ≡ true → none_out kernel.new.mem ≡ true }
    ensures sound { IsSound W.SwapStore kernel.new }
    ensures usable { IsUsable kernel.new }
    ensures keeps { Keeps W.SwapStore kernel.old kernel.new }
    ensures cause { OnErr result (Rose (K.faults out.old) (K.faults out.new)) }
    ensures never_falls { K.faults out.old ≤ K.faults out.new }
{
    kernel.event_start(event);
    gather_records(tells, kernel.last(), out, held)
}

/// Plays an event.
fn play_event<K: Sink, W: SwapStore>(
    kernel: &mut Kernel<W>,
    event: Event,
    tells: Telling,
    limit: u32,
    out: &mut K,
    held: &mut Held,
) -> Result<Ending, PlayFault>
    requires sound { IsSound W.SwapStore kernel.old }
    requires usable { IsUsable kernel.old }
    requires limit { limit ≤ STEP_LIMIT }
    requires within { (machine_of W.held kernel.old).steps ≤ limit }
    ensures plays { let old = stand W.SwapStore kernel.old (text (K.written out.old) held.old.items) in
        let new = stand W.SwapStore kernel.new (text (K.written out.new) held.new.items) in
        Plays (Stood W.SwapStore kernel.old) tells event limit old new result }
    ensures serves { Serves W.SwapStore K.Sink of_events limit kernel.old kernel.new out.old out.new result }
{
    match event {
        Event::Tick(count) => play_tick(kernel, count, tells, limit, out, held),
        Event::Pick(_, _) | Event::Irq(_) | Event::Kill(_) => match play_at_once(
            kernel, event, tells, out, held,
        ) {
            Ok(()) => Ok(Ending::Played),
            Err(_) => Err(PlayFault::Write),
        },
    }
}

/// What came of an answer of the reader.
#[derive(Clone, Copy, Debug, PartialEq, Eq)]
enum Advance {
    /// An event was played.
    Played,
    /// No whole line is held: the reader waits for bytes.
    Waits,
    /// The history ended.
    Ended(Ending),
}

/// Asks for the next event, and plays it if there is one.
fn play_next<K: Sink, W: SwapStore>(
    kernel: &mut Kernel<W>,
    reader: &mut EventReader,
    tells: Telling,
    limit: u32,
    out: &mut K,
    held: &mut Held,
) -> Result<Advance, PlayFault>
    requires sound { IsSound W.SwapStore kernel.old }
    requires usable { IsUsable kernel.old }
    requires limit { limit ≤ STEP_LIMIT }
    requires within { (machine_of W.held kernel.old).steps ≤ limit }
    ensures advances { let old = stand W.SwapStore kernel.old (text (K.written out.old) held.old.items) in
        let new = stand W.SwapStore kernel.new (text (K.written out.new) held.new.items) in
        (first : Kernel W) (start : Machine) (begun : Text) (taken : List ℕ) → let run = run_from W.SwapStore first tells limit start begun in
        Keeps W.SwapStore first kernel.old → HasPlayed run taken reader.old old → Advances run taken reader.old.finished reader.new new result }
    ensures answers { Answers reader.old reader.new result }
    ensures serves { Serves W.SwapStore K.Sink of_events limit kernel.old kernel.new out.old out.new result }
{
    match reader.next() {
        NextEvent::Event(event) => match play_event(kernel, event, tells, limit, out, held)? {
            Ending::Played => Ok(Advance::Played),
            ending => Ok(Advance::Ended(ending)),
        },
        NextEvent::More => Ok(Advance::Waits),
        NextEvent::Bad(line) => Ok(Advance::Ended(Ending::BadLine(line))),
        NextEvent::End => Ok(Advance::Ended(Ending::Played)),
    }
}

/// Plays all events that the reader knows, and answers how the history ended, or None where the
/// reader waits for bytes.
pub fn play_known<K: Sink, W: SwapStore>(
    kernel: &mut Kernel<W>,
    reader: &mut EventReader,
    tells: Telling,
    limit: u32,
    out: &mut K,
    held: &mut Held,
) -> Result<Option<Ending>, PlayFault>
    requires sound { IsSound W.SwapStore kernel.old }
    requires usable { IsUsable kernel.old }
    requires limit { limit ≤ STEP_LIMIT }
    requires within { (machine_of W.held kernel.old).steps ≤ limit }
    ensures goes { let old = stand W.SwapStore kernel.old (text (K.written out.old) held.old.items) in
        let new = stand W.SwapStore kernel.new (text (K.written out.new) held.new.items) in
        (first : Kernel W) (start : Machine) (begun : Text) (taken : List ℕ) → let run = run_from W.SwapStore first tells limit start begun in
        Keeps W.SwapStore first kernel.old → HasPlayed run taken reader.old old → Goes run taken reader.old.finished reader.new new result }
    ensures answers { AnswersAll reader.old reader.new result }
    ensures serves { Serves W.SwapStore K.Sink of_events limit kernel.old kernel.new out.old out.new result }
{
    'answers: loop {
        match play_next(kernel, reader, tells, limit, out, held)? {
            Advance::Played => {}
            Advance::Waits => return Ok(None),
            Advance::Ended(ending) => return Ok(Some(ending)),
        }
    }
}
