//! A buffer for the bytes of a state, whose room is taken once.

ghost use Rattle.std.specs.Prelude.{◌≡◌, ◌+◌, ◌*◌, ◌≤◌, [], ◌++◌, length, IfOk};
ghost use Rattle.suspend_image.specs.Sheets.{SheetBytes, HasRoom, appended, with_word, room_for};
ghost use Rattle.suspend_image.specs.Words.{word, word_bytes};
ghost use Rattle.xk_base.specs.declared.limits.TheConstants.{PROCESS_LIMIT};

use byteorder::{ByteOrder, LittleEndian};
use std::alloc::Global;
use std::marker::Model;
use xk_base::NoMemory;

/// Room of a sheet that no process and no page takes.
const FIXED_ROOM: usize = 1_300_000;
/// Room for a process.
const PROCESS_ROOM: usize = 5_000;
/// Room for a page.
const PAGE_ROOM: usize = 4_200;

/// Bytes that are written one after the other into room that was taken before.
#[derive(Debug, Drop)]
pub struct Sheet {
    bytes: Vec<u8>,
    room: usize,
}

impl Model for Sheet {
    ghost use Rattle.std.specs.Prelude.{◌≤◌, vec_len, vec_capacity};
    ghost use Rattle.suspend_image.specs.Sheets.{SheetBytes};

    ghost Value = { SheetBytes };

    ghost view = { λ s. record { bytes = s.bytes.items; room = s.room } };

    ghost invariant = { λ s. (vec_len s.bytes ≤ s.room) × (s.room ≤ vec_capacity s.bytes) };
}

/// Writes a word over the four bytes at an offset.
fn write_word(bytes: &mut [u8], at: usize, w: u32)
    requires { at + 4 ≤ length bytes.old }
    ensures { bytes.new ≡ with_word at w bytes.old }
{
    LittleEndian::write_u32(&mut bytes[at..], w);
}

impl Sheet {
    /// An empty sheet with room for every state of `n` processes and at most `cap` pages.
    pub fn new(alloc: Global, n: u32, cap: u32) -> Result<Sheet, NoMemory>
        requires processes { n ≤ PROCESS_LIMIT }
        requires pages { cap ≤ 32768 }
        ensures { IfOk result (λ sheet. sheet ≡ record { bytes = []; room = room_for n cap }) }
    {
        let room = FIXED_ROOM + PROCESS_ROOM * n as usize + PAGE_ROOM * (cap as usize + 1);
        match Vec::with_capacity(alloc, room) {
            Ok(bytes) => Ok(Sheet { bytes, room }),
            Err(_) => Err(NoMemory),
        }
    }

    /// The bytes written so far.
    pub fn as_slice(&self) -> &[u8]
        ensures { result.now ≡ self.now.bytes }
    {
        self.bytes.as_slice()
    }

    /// Empties the sheet; its room stays.
    pub fn clear(&mut self)
        ensures { self.new ≡ record self.old { bytes = [] } }
    {
        self.bytes.clear();
    }

    /// Appends bytes.
    pub fn push_bytes(&mut self, b: &[u8])
        requires { length self.old.bytes + length b.now ≤ self.old.room }
        ensures { self.new ≡ record self.old { bytes = self.old.bytes ++ b.now } }
    {
        match self.bytes.extend_from_slice(b) {
            Ok(()) => {}
            Err(_) => unreachable!(),
        }
    }

    /// Appends a word.
    pub fn push_word(&mut self, w: u32)
        requires { length self.old.bytes + 4 ≤ self.old.room }
        ensures { self.new ≡ record self.old { bytes = self.old.bytes ++ word w } }
    {
        self.push_bytes(&w.to_le_bytes());
    }

    /// Appends words.
    pub fn push_words(&mut self, numbers: &[u32])
        requires { HasRoom self.old (word_bytes numbers.now) }
        ensures { self.new ≡ appended (word_bytes numbers.now) self.old }
    {
        for number in numbers {
            self.push_word(*number);
        }
    }

    /// Writes a word over the four bytes at an offset.
    pub fn set_word(&mut self, at: u32, w: u32)
        requires { at + 4 ≤ length self.old.bytes }
        ensures { self.new ≡ record self.old { bytes = with_word at w self.old.bytes } }
    {
        write_word(self.bytes.as_mut_slice(), at as usize, w);
    }
}
