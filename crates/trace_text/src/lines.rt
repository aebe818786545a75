//! The line of a record, and the last line.

ghost use Rattle.std.specs.Prelude.{◌≡◌, ◌+◌, ◌<◌, ◌≤◌, [], ◌++◌};
ghost use Rattle.arrayvec.specs.ArrayVec.{array_vec_len};
ghost use Rattle.trace_text.specs.Lines.{what_text, line_of, end_line_of};

use crate::pieces::{
    Line, append, append_byte, append_decimal, append_thread, append_word, append_words,
};
use arrayvec::ArrayVec;
use xk_base::{Rec, What};

/// Why a run stopped.
#[derive(Clone, Copy, Debug, PartialEq, Eq, Hash)]
pub enum EndWord {
    /// All events were played.
    Done,
    /// The step limit was met.
    Limit,
}

/// Writes the line of a record into the empty buffer, with its line feed.
#[tactic(auto, unfolding(crate::specs::Lines::line_of))]
pub fn line(rec: &Rec, out: &mut ArrayVec<u8, 160>)
    requires { out.old.items ≡ [] }
    ensures text { out.new.items ≡ line_of rec.now }
    ensures some { 0 < array_vec_len out.new }
    ensures fits { array_vec_len out.new ≤ 160 }
{
    append_decimal(out, rec.step);
    append(out, b" ");
    append_what(out, &rec.what);
    append(out, b"\n");
}

/// Appends what happened.
fn append_what(out: &mut Line, what: &What)
    requires { array_vec_len out.old + 120 ≤ 160 }
    ensures text { out.new.items ≡ out.old.items ++ what_text what.now }
    ensures len { array_vec_len out.new ≤ array_vec_len out.old + 120 }
{
    match *what {
        What::Call(thread, words) => {
            append_thread(out, thread);
            append(out, b" call");
            append_words(out, &words);
        }
        What::Reply(thread, words) => {
            append_thread(out, thread);
            append(out, b" reply");
            append_words(out, &words);
        }
        What::Retry(thread) => {
            append_thread(out, thread);
            append(out, b" retry");
        }
        What::Byte(thread, byte) => {
            append_thread(out, thread);
            append(out, b" byte ");
            append_byte(out, byte);
        }
        What::Fault(thread, cause, value) => {
            append_thread(out, thread);
            append(out, b" fault ");
            append_decimal(out, cause as u32);
            append(out, b" ");
            append_word(out, value);
        }
        What::End(thread) => {
            append_thread(out, thread);
            append(out, b" end");
        }
        What::Irq(pid, number) => {
            append_decimal(out, pid.0 as u32);
            append(out, b".1 irq ");
            append_decimal(out, number as u32);
        }
        What::Gone(pid) => {
            append_decimal(out, pid.0 as u32);
            append(out, b" gone");
        }
    }
}

/// Writes the last line into the empty buffer: the steps that were done, and why the run stopped.
#[tactic(auto, unfolding(crate::specs::Lines::end_line_of))]
pub fn end_line(steps: u32, why: EndWord, out: &mut ArrayVec<u8, 160>)
    requires { out.old.items ≡ [] }
    ensures text { out.new.items ≡ end_line_of steps why }
    ensures some { 0 < array_vec_len out.new }
    ensures fits { array_vec_len out.new ≤ 160 }
{
    append(out, b"end ");
    append_decimal(out, steps);
    match why {
        EndWord::Done => append(out, b" done\n"),
        EndWord::Limit => append(out, b" limit\n"),
    }
}
