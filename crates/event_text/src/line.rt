//! What a line of an event file is.

ghost use Rattle.std.specs.Prelude.{◌≡◌};
ghost use Rattle.event_text.specs.Lines.{words_of};
ghost use Rattle.event_text.specs.EventFile.{pick_of, event_of, line_of_text, line_at, is_over};

use crate::event::Line;
use crate::numbers::{only_number, read_number};
use crate::words::{next_word, without_last};
use xk_base::limits::{EVENT_FILE_LIMIT, EVENT_LINE_LIMIT};
use xk_base::{Event, Pid, Tid};

/// The two numbers of a `pick`.
fn read_pick(text: &[u8]) -> Option<Event>
    ensures { result ≡ pick_of (words_of text.now) }
{
    let (pid, rest) = next_word(text)?;
    let (tid, rest) = next_word(rest)?;
    if next_word(rest).is_some() {
        return None;
    }
    let pid = read_number(pid, 255)?;
    let tid = read_number(tid, 255)?;
    Some(Event::Pick(Pid(pid as u8), Tid(tid as u8)))
}

/// The event that a first word and the text after it ask for.
#[tactic(auto, unfolding(crate::specs::EventFile::event_of))]
fn read_event(word: &[u8], rest: &[u8]) -> Option<Event>
    ensures { result ≡ event_of word.now (words_of rest.now) }
{
    if word == b"tick".as_slice() {
        Some(Event::Tick(only_number(rest, u32::MAX)?))
    } else if word == b"pick".as_slice() {
        read_pick(rest)
    } else if word == b"irq".as_slice() {
        Some(Event::Irq(only_number(rest, 31)? as u8))
    } else if word == b"kill".as_slice() {
        Some(Event::Kill(Pid(only_number(rest, 255)? as u8)))
    } else {
        None
    }
}

/// What the line with this text is.
fn read_text(text: &[u8]) -> Line
    ensures { result ≡ line_of_text text.now }
{
    let Some((word, rest)) = next_word(text) else {
        return Line::Blank;
    };
    if word[0] == b'#' {
        return Line::Blank;
    }
    match read_event(word, rest) {
        Some(event) => Line::Asks(event),
        None => Line::Bad,
    }
}

/// Whether a line that begins at this offset is bad by its length or by an offset.
pub(crate) fn is_over(line: &[u8], start: u32) -> bool
    ensures { result ≡ is_over start line.now }
{
    let text = without_last(line, b'\n');
    text.len() > EVENT_LINE_LIMIT as usize
        || !line.is_empty() && line.len() as u64 + u64::from(start) > u64::from(EVENT_FILE_LIMIT)
}

/// What the whole line is that begins at this offset, with its line feed if it has one.
#[tactic(auto, unfolding(crate::specs::EventFile::line_at))]
pub(crate) fn read_line(line: &[u8], start: u32) -> Line
    ensures { result ≡ line_at start line.now }
{
    if is_over(line, start) {
        return Line::Bad;
    }
    read_text(without_last(without_last(line, b'\n'), b'\r'))
}
