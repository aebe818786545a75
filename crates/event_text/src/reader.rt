//! A reader of an event file that comes in pieces.

ghost use Rattle.std.specs.Prelude.{◌≡◌, ◌+◌, ◌≤◌, ◌<◌, [], ◌∷◌, None, Some, ℕ, false, true, take, length};
ghost use Rattle.xk_base.specs.declared.limits.TheConstants.{EVENT_FILE_LIMIT};
ghost use Rattle.xk_base.specs.declared.events.Event.{Event};
ghost use Rattle.event_text.specs.declared.event.NextEvent.TheVariants as answer;
ghost use Rattle.event_text.specs.Held.{new_reader, with_bytes, known_line, first_line, can_grow, known_bad, IsWaiting, front_of, is_good};
ghost use Rattle.event_text.specs.Held.{past_line, rest_answer, answer_of, after_next};

use crate::event::{Line, NextEvent};
use crate::line::{is_over, read_line};
use arrayvec::ArrayVec;
use std::marker::Model;
use xk_base::limits::EVENT_LINE_LIMIT;

/// The bytes of the longest line with its line feed. As many bytes without a line feed are too
/// many for a line.
const ROOM: usize = EVENT_LINE_LIMIT as usize + 1;

/// Reads an event file that comes in pieces, cut anywhere. It holds one line at most and takes no
/// memory.
#[derive(Debug, Drop)]
pub struct EventReader {
    lines_done: u32,
    start: u32,
    held: ArrayVec<u8, ROOM>,
    finished: bool,
}

impl Model for EventReader {
    ghost use Rattle.event_text.specs.Held.{Reader, IsHeld};

    ghost Value = { Reader };

    ghost view = { λ r. record { lines_done = r.lines_done; start = r.start; held = r.held.items; finished = r.finished } };

    ghost invariant = { λ r. IsHeld r.lines_done r.start r.held.items };
}

/// What is known of the line held.
#[tactic(auto, unfolding(crate::specs::Held::known_line))]
fn read_held(held: &[u8], start: u32, finished: bool) -> Option<Line>
    ensures { result ≡ known_line finished start held.now }
{
    if !held.is_empty() && (finished || held.contains(&b'\n')) {
        Some(read_line(held, start))
    } else if is_over(held, start) {
        Some(Line::Bad)
    } else {
        None
    }
}

impl EventReader {
    /// A reader at the start of a file.
    pub fn new() -> EventReader
        ensures { result ≡ new_reader }
    {
        EventReader {
            lines_done: 0,
            start: 0,
            held: ArrayVec::new(),
            finished: false,
        }
    }

    /// Whether the line held can have one byte more.
    fn can_grow(&self) -> bool
        ensures room { result ≡ can_grow self.now }
        ensures one_line { first_line self.now.held ≡ self.now.held }
    {
        !self.held.is_full() && !self.held.as_slice().ends_with(b"\n")
    }

    /// Adds a byte to the line held.
    fn push(&mut self, byte: u8)
        requires { can_grow self.old ≡ true }
        ensures { self.new ≡ with_bytes self.old (byte ∷ []) }
    {
        self.held.push(byte);
    }

    /// Takes the first bytes of the piece, at most to the end of a line, and answers how many it
    /// took: none where the line held is full or ended, so ask for the next event then.
    pub fn feed(&mut self, piece: &[u8]) -> usize
        requires { self.old.finished ≡ false }
        ensures within { result ≤ length piece.now }
        ensures held { self.new ≡ with_bytes self.old (take result piece.now) }
        ensures some { IsWaiting self.old → 0 < length piece.now → 0 < result }
    {
        let mut taken = 0;
        for &byte in piece {
            if !self.can_grow() {
                return taken;
            }
            self.push(byte);
            taken += 1;
        }
        taken
    }

    /// Says that the file has ended: what is held without a line feed is its last line.
    pub fn finish(&mut self)
        ensures { self.new ≡ record self.old { finished = true } }
    {
        self.finished = true;
    }

    /// What is known of the line held.
    fn front(&self) -> Option<Line>
        ensures front { result ≡ front_of self.now }
        ensures one_line { first_line self.now.held ≡ self.now.held }
    {
        read_held(self.held.as_slice(), self.start, self.finished)
    }

    /// Takes the line held, which is good.
    fn pass_line(&mut self)
        requires { is_good (front_of self.old) ≡ true }
        ensures { self.new ≡ past_line self.old }
    {
        self.lines_done += 1;
        self.start += self.held.len() as u32;
        self.held.clear();
    }

    /// The number of the line held.
    fn line_number(&self) -> u32
        ensures { result ≡ self.now.lines_done + 1 }
    {
        self.lines_done + 1
    }

    /// The answer where nothing is known of a line.
    fn rest(&self) -> NextEvent
        ensures answer { result ≡ rest_answer self.now.finished }
        ensures within { front_of self.now ≡ None → self.now.start + length self.now.held ≤ EVENT_FILE_LIMIT }
    {
        if self.finished {
            NextEvent::End
        } else {
            NextEvent::More
        }
    }

    /// The next event. Good lines that are no event are passed over.
    pub fn next(&mut self) -> NextEvent
        ensures answer { result ≡ answer_of self.old }
        ensures after { self.new ≡ after_next self.old }
        ensures more { result ≡ answer.More → IsWaiting self.new }
        ensures within { result ≡ answer.More → self.new.start + length self.new.held ≤ EVENT_FILE_LIMIT }
        ensures offset { self.new.start + length self.new.held ≡ self.old.start + length self.old.held }
        ensures fewer { (event : Event) → result ≡ answer.Event event → length self.new.held < length self.old.held }
        ensures bad { (n : ℕ) → result ≡ answer.Bad n → known_bad self.new ≡ Some n }
    {
        match self.front() {
            Some(Line::Bad) => NextEvent::Bad(self.line_number()),
            Some(Line::Asks(event)) => {
                self.pass_line();
                NextEvent::Event(event)
            }
            Some(Line::Blank) => {
                self.pass_line();
                self.rest()
            }
            None => self.rest(),
        }
    }
}
