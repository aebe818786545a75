//! The text of a status on the notes.

ghost use Rattle.std.specs.Prelude.{◌≡◌, ◌≤◌};
ghost use Rattle.arrayvec.specs.ArrayVec.{array_vec_len};
ghost use Rattle.program_status.specs.Notes.{Notes, sink_side};
ghost use Rattle.xous_program.specs.Notes.{note_of, usage_line};

use crate::status::Status;
use host_io::text::{Line, put};
use xk_ports::Sink;

/// The usage line. It is cut in two, each of which is short enough to be read.
fn usage() -> Line
    ensures text { result.items ≡ usage_line }
    ensures len { array_vec_len result ≤ 256 }
{
    let mut line = Line::new();
    put(
        &mut line,
        b"usage: xousim trace|run|ledger IMAGE EVENTS [STEPS [SLOTS [STORE]]] | check IMAGE [SLOTS] | convert IMAGE | demo N | ",
    );
    put(
        &mut line,
        b"suspend IMAGE EVENTS [STEPS [SLOTS]] | resume STATE EVENTS [STEPS [SLOTS]]\n",
    );
    line
}

/// Writes the note of a status. A fault there leaves the status as it was decided.
pub fn write_note<N: Sink>(status: Status, notes: &mut N)
    ensures noted { Notes (sink_side N.Sink notes.old notes.new) (note_of status) }
    ensures never_falls { N.faults notes.old ≤ N.faults notes.new }
{
    program_status::write_note(status, usage().as_slice(), notes);
}
