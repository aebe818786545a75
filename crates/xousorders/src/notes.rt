//! The text on the notes.

ghost use Rattle.std.specs.Prelude.{◌≡◌, ◌≤◌};
ghost use Rattle.arrayvec.specs.ArrayVec.{array_vec_len};
ghost use Rattle.program_status.specs.Notes.{Notes, sink_side};
ghost use Rattle.xousorders.specs.Outcomes.{note_of, usage_line};

use crate::outcome::Outcome;
use host_io::text::{Line, put};
use xk_ports::{Sink, put_all};

/// The usage line. It is cut in two, each of which is short enough to be read.
fn usage() -> Line
    ensures text { result.items ≡ usage_line }
    ensures len { array_vec_len result ≤ 256 }
{
    let mut line = Line::new();
    put(
        &mut line,
        b"usage: xousorders IMAGE [--quantum N] [--preemptions P] [--steps N] [--states N] [--seconds N] [--from EVENTS] ",
    );
    put(
        &mut line,
        b"[--irq K].. [--kill PID].. [--write DIR] [--see WHAT,..] [--hex] [--fails WHAT].. [--first] [--one]\n",
    );
    line
}

/// Writes the note of an outcome. A fault there leaves the outcome as it was decided.
pub fn write_note<N: Sink>(outcome: Outcome, notes: &mut N)
    ensures noted { Notes (sink_side N.Sink notes.old notes.new) (note_of outcome) }
    ensures never_falls { N.faults notes.old ≤ N.faults notes.new }
{
    match outcome {
        Outcome::Ended(status) => program_status::write_note(status, usage().as_slice(), notes),
        Outcome::Failed => {}
        Outcome::Cut => {
            let _ = put_all(notes, b"cut\n");
        }
    }
}
