//! The text of a status on the notes.

ghost use Rattle.std.specs.Prelude.{◌≡◌, ◌≤◌, [], length};
ghost use Rattle.program_status.specs.Notes.{Notes, fault_line, note_with, sink_side};

use crate::faults::fault_name;
use crate::status::Status;
use host_io::text::{Line, put, put_number};
use kernel_args::ArgFault;
use xk_ports::{Sink, put_all};

fn put_fault(note: &mut Line, fault: ArgFault)
    requires { note.old.items ≡ [] }
    ensures { note.new.items ≡ fault_line fault }
{
    put(note, b"image fault ");
    put(note, fault_name(fault.what));
    put(note, b" at ");
    put_number(note, fault.at);
    put(note, b"\n");
}

/// The note of a status, where this is the usage line.
fn note(status: Status, usage: &[u8]) -> Line
    requires { length usage.now ≤ 256 }
    ensures { result.items ≡ note_with usage.now status }
{
    let mut note = Line::new();
    match status {
        Status::Done => {}
        Status::Usage => put(&mut note, usage),
        Status::ReadFault => put(&mut note, b"read fault\n"),
        Status::WriteFault => put(&mut note, b"write fault\n"),
        Status::ImageFault(fault) => put_fault(&mut note, fault),
        Status::EventFault(line) => {
            put(&mut note, b"event fault at line ");
            put_number(&mut note, line);
            put(&mut note, b"\n");
        }
        Status::StepLimit(limit) => {
            put(&mut note, b"step limit ");
            put_number(&mut note, limit);
            put(&mut note, b"\n");
        }
        Status::SwapFault => put(&mut note, b"swap fault\n"),
        Status::NoMemory => put(&mut note, b"no memory\n"),
    }
    note
}

/// Writes the note of a status, where this is the usage line. A fault there leaves the status as it was decided.
pub fn write_note<N: Sink>(status: Status, usage: &[u8], notes: &mut N)
    requires { length usage.now ≤ 256 }
    ensures noted { Notes (sink_side N.Sink notes.old notes.new) (note_with usage.now status) }
    ensures never_falls { N.faults notes.old ≤ N.faults notes.new }
{
    let _ = put_all(notes, note(status, usage).as_slice());
}
