//! Events are written as the lines of an event file, and a file of such lines asks for just these events.

ghost use Rattle.std.specs.Prelude.{◌≡◌, ◌≤◌, ◌++◌, ◌∷◌, decimal, length, IfOk, OnOk};
ghost use Rattle.xk_base.specs.declared.limits.TheConstants.{EVENT_FILE_LIMIT};
ghost use Rattle.event_text.specs.Spelling.{AreAskable, AsksFor, LinesAreRead, event_line, event_lines};

use itoa::Buffer;
use std::alloc::{AllocError, Global};
use xk_base::Event;

/// A space and a number.
fn put_number(n: u32, out: &mut Vec<u8>) -> Result<(), AllocError>
    ensures { OnOk result (out.new.items ≡ out.old.items ++ 32 ∷ decimal n) }
{
    out.push(b' ')?;
    let mut buffer = Buffer::new();
    out.extend_from_slice(buffer.format(n).as_bytes())
}

/// The line of an event.
fn put_event(event: Event, out: &mut Vec<u8>) -> Result<(), AllocError>
    ensures { OnOk result (out.new.items ≡ out.old.items ++ event_line event) }
{
    match event {
        Event::Tick(n) => {
            out.extend_from_slice(b"tick")?;
            put_number(n, out)?;
        }
        Event::Pick(pid, tid) => {
            out.extend_from_slice(b"pick")?;
            put_number(u32::from(pid.0), out)?;
            put_number(u32::from(tid.0), out)?;
        }
        Event::Irq(k) => {
            out.extend_from_slice(b"irq")?;
            put_number(u32::from(k), out)?;
        }
        Event::Kill(pid) => {
            out.extend_from_slice(b"kill")?;
            put_number(u32::from(pid.0), out)?;
        }
    }
    out.push(b'\n')?;
    Ok(())
}

/// The bytes of a file that asks for these events.
pub fn event_file(alloc: Global, events: &[Event]) -> Result<Vec<u8>, AllocError>
    ensures lines { IfOk result (λ file. file.items ≡ event_lines events.now) }
    ensures asks { IfOk result (λ file. AreAskable events.now → length file.items ≤ EVENT_FILE_LIMIT → AsksFor file.items events.now) }
{
    let mut file = Vec::new(alloc);
    for event in events {
        put_event(*event, &mut file)?;
    }
    Ok(file)
}

/// **Lines of events are read as these events**, in a file that isn't too long.
pub fn lines_are_read()
    ensures { LinesAreRead }
{}
