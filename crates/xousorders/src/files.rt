//! Orders are written as event files.

ghost use Rattle.std.specs.Prelude.{◌≡◌, ◌≤◌, ◌∷◌, ◌++◌, [], All, IfErr, IfOk, OnOk, slice_get};
ghost use Rattle.event_text.specs.Spelling.{AreAskable, IsAskable};
ghost use Rattle.order_model.specs.Moves.{Asked, events_of as events_in, events_of_move};
ghost use Rattle.xk_base.specs.Outside.{Rose};
ghost use Rattle.xk_ports.specs.Told.{Grows};
ghost use Rattle.xousorders.specs.Files.{event_file_of, order_file, order_files, with_feed};
ghost use Rattle.xousorders.specs.Outcomes.{IsUnfiled};

use crate::event_files::EventFiles;
use event_text::event_file;
use order_model::Move;
use order_text::Ending;
use program_status::Status;
use std::alloc::{AllocError, Global};
use xk_base::{Event, Pid, ThreadId, Tid};

/// The event of this number.
fn event_at(once: &[Event], number: u32) -> Option<Event>
    ensures { result ≡ slice_get once.now number }
{
    once.get(number as usize).copied()
}

/// The turn of a thread.
fn pick(pid: u8, tid: u8) -> Event
    ensures event { result ≡ Event.Pick (record { 0 = pid }) (record { 0 = tid }) }
    ensures askable { IsAskable result }
{
    Event::Pick(Pid(pid), Tid(tid))
}

/// So many steps.
fn tick(steps: u32) -> Event
    ensures event { result ≡ Event.Tick steps }
    ensures askable { IsAskable result }
{
    Event::Tick(steps)
}

/// The events that play a slice.
fn add_slice(events: &mut Vec<Event>, who: ThreadId, steps: u32) -> Result<(), AllocError>
    ensures events { OnOk result (events.new.items
        ≡ events.old.items ++ (Event.Pick who.pid who.tid ∷ Event.Tick steps ∷ [])) }
    ensures askable { AreAskable events.old.items → OnOk result (AreAskable events.new.items) }
{
    events.push(pick(who.pid.0, who.tid.0))?;
    events.push(tick(steps))?;
    Ok(())
}

/// The events that play a move.
fn add_move(events: &mut Vec<Event>, next: Move, once: &[Event]) -> Result<(), AllocError>
    ensures events { (asked : Asked) → asked.once ≡ once.now
        → OnOk result (events.new.items ≡ events.old.items ++ events_of_move asked next) }
    ensures askable { AreAskable once.now → AreAskable events.old.items → OnOk result (AreAskable events.new.items) }
{
    match next {
        Move::Slice(who, steps) => add_slice(events, who, steps),
        Move::Preempted(who, steps) => add_slice(events, who, steps),
        Move::Once(number) => match event_at(once, number) {
            Some(event) => {
                events.push(event)?;
                Ok(())
            }
            None => Ok(()),
        },
    }
}

/// The events of an order.
fn events_of(alloc: Global, order: &[Move], once: &[Event]) -> Result<Vec<Event>, AllocError>
    ensures events { (asked : Asked) → asked.once ≡ once.now → IfOk result (λ events. events.items ≡ events_in asked order.now) }
    ensures askable { AreAskable once.now → IfOk result (λ events. AreAskable events.items) }
{
    let mut events = Vec::new(alloc);
    for next in order {
        add_move(&mut events, *next, once)?;
    }
    Ok(events)
}

/// These bytes, with a line feed behind the last line.
fn end_lines(alloc: Global, bytes: &[u8]) -> Result<Vec<u8>, AllocError>
    ensures { IfOk result (λ file. file.items ≡ with_feed bytes.now) }
{
    let mut file = bytes.to_vec(alloc)?;
    if bytes.is_empty() || bytes.ends_with(b"\n") {
        return Ok(file);
    }
    file.push(b'\n')?;
    Ok(file)
}

/// The bytes of a file that plays the events before and then the order.
fn file_of(
    alloc: Global,
    before: &[u8],
    order: &[Move],
    once: &[Event],
) -> Result<Vec<u8>, AllocError>
    ensures file { (asked : Asked) → asked.once ≡ once.now → IfOk result (λ file. file.items ≡ order_file asked before.now order.now) }
    ensures spelled { (asked : Asked) → asked.once ≡ once.now → AreAskable once.now → IfOk result (λ _. AreAskable (events_in asked order.now)) }
{
    let mut file = end_lines(alloc, before)?;
    let events = events_of(alloc, order, once)?;
    let lines = event_file(alloc, &events)?;
    file.extend_from_slice(&lines)?;
    Ok(file)
}

/// Writes the event file of an ending.
fn write_file<F: EventFiles>(
    alloc: Global,
    files: &mut F,
    folder: &str,
    number: u64,
    before: &[u8],
    once: &[Event],
    ending: &Ending,
) -> Result<(), Status>
    ensures filed { (asked : Asked) → asked.once ≡ once.now → OnOk result (Grows (F.written files.old) (F.written files.new)
        (event_file_of folder.now asked before.now number ending.now.order.items ∷ [])) }
    ensures spelled { (asked : Asked) → asked.once ≡ once.now → AreAskable once.now
        → OnOk result (AreAskable (events_in asked ending.now.order.items)) }
    ensures unfiled { IfErr result (IsUnfiled (Rose (F.faults files.old) (F.faults files.new))) }
    ensures never_falls { F.faults files.old ≤ F.faults files.new }
    ensures opened { F.unopened files.new ≡ F.unopened files.old }
{
    let file = file_of(alloc, before, &ending.order, once)?;
    match files.write(folder, number, file.as_slice()) {
        Ok(()) => Ok(()),
        Err(_) => Err(Status::WriteFault),
    }
}

/// Writes the event file of each ending.
pub fn write_files<F: EventFiles>(
    alloc: Global,
    files: &mut F,
    folder: &str,
    before: &[u8],
    once: &[Event],
    endings: &[Ending],
) -> Result<(), Status>
    ensures filed { (asked : Asked) → asked.once ≡ once.now
        → OnOk result (Grows (F.written files.old) (F.written files.new) (order_files folder.now asked before.now endings.now)) }
    ensures spelled { (asked : Asked) → asked.once ≡ once.now → AreAskable once.now
        → OnOk result (All (λ ending. AreAskable (events_in asked ending.order.items)) endings.now) }
    ensures unfiled { IfErr result (IsUnfiled (Rose (F.faults files.old) (F.faults files.new))) }
    ensures never_falls { F.faults files.old ≤ F.faults files.new }
    ensures opened { F.unopened files.new ≡ F.unopened files.old }
{
    for place in 0..endings.len() {
        let number = place as u64 + 1;
        write_file(alloc, files, folder, number, before, once, &endings[place])?;
    }
    Ok(())
}
