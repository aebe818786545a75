//! Whether what a run left is as wanted.

ghost use Rattle.std.specs.Prelude.{IsNone, IsTrue};
ghost use Rattle.run_cases.specs.Judging.{IsAsWanted, IsOutWanted};

use crate::case::{Wanted, WantedOut};
use thiserror::Error;

/// What a run left.
#[derive(Debug, Drop)]
pub struct Left {
    /// The number of its status.
    pub number: u32,
    /// The note of its status.
    pub note: Vec<u8>,
    pub out: Vec<u8>,
    pub notes: Vec<u8>,
}

/// What isn't as wanted.
#[derive(Clone, Copy, Debug, PartialEq, Eq, Error)]
pub enum Difference {
    #[error("the number of the status")]
    Number,
    #[error("the status")]
    Note,
    #[error("the notes")]
    Notes,
    #[error("the output")]
    Out,
    #[error("the length of the output")]
    Length,
    #[error("how often a part stands in the output")]
    Count,
    #[error("what stands on the output before a fault")]
    Front,
    #[error("the number of the last call of the store that fails there")]
    LastCall,
    #[error("that calls fail without end")]
    Calls,
}

/// How often a part stands in a text.
fn count(text: &[u8], part: &[u8]) -> usize {
    if part.is_empty() {
        return 0;
    }
    text.windows(part.len())
        .filter(|seen| *seen == part)
        .count()
}

/// How many lines a text has.
pub fn lines_told(text: &[u8]) -> usize {
    text.iter().filter(|byte| **byte == b'\n').count()
}

/// The word of a line that a line feed or a space ends: its step.
fn step_of(line: &[u8]) -> &[u8] {
    let end = line.iter().position(|byte| *byte == b' ' || *byte == b'\n');
    match end.and_then(|end| line.get(..end)) {
        None => line,
        Some(step) => step,
    }
}

/// The last line of a text that ends in a line feed.
fn last_line(text: &[u8]) -> &[u8] {
    let Some((_, lines)) = text.split_last() else {
        return text;
    };
    match lines.iter().rposition(|byte| *byte == b'\n') {
        None => lines,
        Some(at) => lines.get(at + 1..).unwrap_or(lines),
    }
}

/// The output is as wanted.
fn is_out_wanted(wanted: &WantedOut, out: &[u8]) -> bool
    ensures { IsTrue result → IsOutWanted wanted.now out.now }
{
    match wanted {
        WantedOut::Whole(bytes) => out == bytes.as_slice(),
        WantedOut::Last(bytes) => out.ends_with(bytes.as_slice()),
        WantedOut::Any => true,
    }
}

impl Wanted {
    /// The first thing that isn't as wanted.
    pub fn difference(&self, left: &Left) -> Option<Difference>
        ensures { IsNone result → IsAsWanted self.now left.now }
    {
        let note = self.note.as_slice();
        if left.number != self.number {
            return Some(Difference::Number);
        }
        if left.note.as_slice() != note {
            return Some(Difference::Note);
        }
        let notes = if self.is_noted { note } else { b"" };
        if left.notes.as_slice() != notes {
            return Some(Difference::Notes);
        }
        if !is_out_wanted(&self.out, left.out.as_slice()) {
            return Some(Difference::Out);
        }
        self.further_difference(left.out.as_slice())
    }

    /// The same of the length of the output, and of its parts.
    fn further_difference(&self, out: &[u8]) -> Option<Difference> {
        if self.length.is_some_and(|length| length != out.len()) {
            return Some(Difference::Length);
        }
        for (wanted, part) in &self.counts {
            if count(out, part.as_slice()) != *wanted {
                return Some(Difference::Count);
            }
        }
        None
    }

    /// The bytes that are wanted as the output or as its end.
    pub fn whole(&self) -> &[u8] {
        match &self.out {
            WantedOut::Whole(bytes) => bytes.as_slice(),
            WantedOut::Last(bytes) => bytes.as_slice(),
            WantedOut::Any => b"",
        }
    }
}

/// A fault came at this call of the output or of the store: just its note stands on the notes, and on the output a part of
/// the whole, which is empty at the first call. Where steps are to be whole, the part ends between two lines of different
/// steps.
pub fn fault_difference(
    (number, note): (u32, &[u8]),
    whole: &[u8],
    left: &Left,
    (call, are_steps_whole): (u64, bool),
) -> Option<Difference> {
    if left.number != number {
        return Some(Difference::Number);
    }
    if left.note.as_slice() != note {
        return Some(Difference::Note);
    }
    if left.notes.as_slice() != note {
        return Some(Difference::Notes);
    }
    let told = left.out.as_slice();
    if call == 1 && !told.is_empty() {
        return Some(Difference::Front);
    }
    match whole.strip_prefix(told) {
        None => Some(Difference::Front),
        Some(rest) if are_steps_whole && !ends_a_step(told, rest) => Some(Difference::Front),
        Some(_) => None,
    }
}

/// A text is cut between two lines of different steps, or at one of its ends.
fn ends_a_step(told: &[u8], rest: &[u8]) -> bool {
    match told.last() {
        None => true,
        Some(byte) => {
            *byte == b'\n' && !rest.is_empty() && step_of(last_line(told)) != step_of(rest)
        }
    }
}
