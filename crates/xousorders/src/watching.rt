//! Who waits for a search is told how far it has come, and says if its time is over.

ghost use Rattle.std.specs.Prelude.{◌≤◌, ◌+◌, length};
ghost use Rattle.arrayvec.specs.ArrayVec.{array_vec_len};

use host_io::text::{Line, put, put_number};
use std::rt::Clock;
use std::time::Instant;
use xk_ports::{Sink, put_all};

/// How many seconds nothing is told.
const PAUSE: u64 = 1;

/// How far a search has come.
#[derive(Clone, Copy, Debug)]
pub struct Progress {
    /// How many nodes it found.
    pub nodes: usize,
    /// How many of them it followed.
    pub followed: usize,
}

/// Who waits for a search. Nothing is promised of time.
pub trait Watch {
    /// The search has come so far.
    fn see(&mut self, progress: Progress);

    /// Whether so many seconds are over.
    fn is_over(&mut self, seconds: u32) -> bool;
}

/// Tells about once a second how far a search has come, and counts its time.
#[derive(Drop)]
pub struct Teller<'a, C: Clock, N: Sink> {
    clock: &'a C,
    notes: &'a mut N,
    /// Whether anybody looks.
    is_seen: bool,
    begun: Option<Instant>,
    last: Option<Instant>,
}

/// Appends a text and a number; one above those of 32 bits is told as the greatest of them.
fn put_count(line: &mut Line, text: &[u8], count: usize)
    requires { array_vec_len line.old + length text.now + 10 ≤ 256 }
    ensures { array_vec_len line.new ≤ array_vec_len line.old + length text.now + 10 }
{
    put(line, text);
    put_number(line, count.min(u32::MAX as usize) as u32);
}

/// The line of so much progress.
fn line_of(progress: Progress) -> Line {
    let mut line = Line::new();
    put_count(&mut line, b"states ", progress.nodes);
    put_count(&mut line, b" followed ", progress.followed);
    let frontier = progress.nodes.saturating_sub(progress.followed);
    put_count(&mut line, b" frontier ", frontier);
    put(&mut line, b"\n");
    line
}

impl<'a, C: Clock, N: Sink> Teller<'a, C, N> {
    /// Tells on the notes, where they are seen. The time begins now.
    pub fn new(clock: &'a C, notes: &'a mut N, is_seen: bool) -> Teller<'a, C, N> {
        Teller {
            clock,
            notes,
            is_seen,
            begun: Instant::now(clock).ok(),
            last: None,
        }
    }

    /// Whether it was told long ago, or never; the first call is told of never.
    fn is_due(&mut self) -> bool {
        let Ok(now) = Instant::now(self.clock) else {
            return false;
        };
        match self.last {
            Some(last) if now.duration_since(last).as_secs() < PAUSE => false,
            Some(_) => {
                self.last = Some(now);
                true
            }
            None => {
                self.last = Some(now);
                false
            }
        }
    }
}

impl<'a, C: Clock, N: Sink> Watch for Teller<'a, C, N> {
    fn see(&mut self, progress: Progress) {
        if self.is_seen && self.is_due() {
            let _ = put_all(self.notes, line_of(progress).as_slice());
        }
    }

    fn is_over(&mut self, seconds: u32) -> bool {
        match (self.begun, Instant::now(self.clock)) {
            (Some(begun), Ok(now)) => now.duration_since(begun).as_secs() >= u64::from(seconds),
            (None, _) | (_, Err(_)) => false,
        }
    }
}
