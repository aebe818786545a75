//! The bytes of RAM.

ghost use Rattle.std.specs.Prelude.{◌≡◌, ◌+◌, ◌*◌, ◌/◌, ◌%◌, ◌<◌, ◌≤◌, ℕ, Some, length, slice_index, nat_eq, All, IfOk, IfSome, IfNone};
ghost use Rattle.xk_base.specs.declared.limits.TheConstants.{FRAME_LIMIT};

use crate::bytes::{are_bytes, zeros};
use byteorder::{ByteOrder, LittleEndian};
use std::alloc::Global;
use std::marker::Model;
use xk_base::limits::PAGE_SIZE;
use xk_base::{Frame, NoMemory};

/// RAM: a row of frames of 4096 bytes, from a physical address on.
#[derive(Debug, Drop)]
pub struct Ram {
    start: u32,
    bytes: Vec<u8>,
}

impl Model for Ram {
    ghost use Rattle.std.specs.Prelude.{◌≡◌, ◌*◌, ◌/◌, length};
    ghost use Rattle.phys_pages.specs.Ram.{RamBytes, IsRam};

    ghost Value = { RamBytes };

    ghost view = { λ r. record { start = r.start; bytes = r.bytes.items } };

    ghost invariant = { λ r. IsRam r.start (length r.bytes.items) };
}

#[tactic(auto, unfolding(crate::specs::Ram::area, crate::specs::Ram::pages, crate::specs::Ram::words, crate::specs::Ram::with_page))]
impl Ram {
    ghost use Rattle.std.specs.Borrow.{sem};
    ghost use Rattle.xk_base.specs.Tables.Counting.{put_at};
    ghost use Rattle.phys_pages.specs.Ram.{area, pages, words, IsPlaced, IsInside, ppn_of, frame_of, frame_at, with_word};
    ghost use Rattle.phys_pages.specs.Lending.{LendsPage};

    /// RAM of `frames` zeroed frames from the physical address `start` on. All memory is taken here.
    pub fn new(alloc: Global, start: u32, frames: u32) -> Result<Ram, NoMemory>
        requires aligned { start % 4096 ≡ 0 }
        requires few { frames ≤ FRAME_LIMIT }
        requires below_device { start + frames * 4096 ≤ 0xF000_0000 }
        ensures area { IfOk result (λ r. area r ≡ record { start = start; frames = frames }) }
        ensures zero { IfOk result (λ r. (f i : ℕ) → slice_index (pages r f) i ≡ 0) }
    {
        let bytes = zeros(alloc, frames as usize * PAGE_SIZE as usize)?;
        Ok(Ram { start, bytes })
    }

    /// How many frames there are. RAM starts at a page and ends at or below the device's page.
    pub fn frames(&self) -> u32
        ensures count { result ≡ (area self.now).frames }
        ensures placed { IsPlaced (area self.now) }
    {
        (self.bytes.len() / PAGE_SIZE as usize) as u32
    }

    /// The 4096 bytes of a frame.
    pub fn page(&self, f: Frame) -> &[u8]
        requires { f.0 < (area self.now).frames }
        ensures value { result.now ≡ pages self.now f.0 }
        ensures len { length result.now ≡ 4096 }
    {
        let at = f.0 as usize * PAGE_SIZE as usize;
        &self.bytes[at..at + PAGE_SIZE as usize]
    }

    /// The 4096 bytes of a frame, to be written: what is written is what the frame then holds, and
    /// all other frames stay.
    pub fn page_mut(&mut self, f: Frame) -> &mut [u8]
        requires { f.0 < (area self.old).frames }
        ensures* lends { sem 𝓛 (LendsPage self.entry f.0 result) }
        ensures value { result.now ≡ pages self.old f.0 }
        ensures len { length result.now ≡ 4096 }
    {
        let at = f.0 as usize * PAGE_SIZE as usize;
        self.bytes.slice_mut(at..at + PAGE_SIZE as usize)
    }

    /// The physical page number of a frame: its physical address divided by 4096.
    pub fn ppn_of(&self, f: Frame) -> u32
        requires { f.0 < (area self.now).frames }
        ensures number { result ≡ ppn_of (area self.now) f.0 }
        ensures inverse { frame_of (area self.now) result ≡ Some f }
        ensures placed { IsPlaced (area self.now) }
    {
        self.start / PAGE_SIZE + f.0
    }

    /// The frame of a physical page number; `None` exactly outside RAM.
    pub fn frame_of(&self, ppn: u32) -> Option<Frame>
        ensures answer { result ≡ frame_of (area self.now) ppn }
        ensures within { IfSome result (λ f. f.0 < (area self.now).frames) }
        ensures inverse { IfSome result (λ f. ppn_of (area self.now) f.0 ≡ ppn) }
        ensures placed { IsPlaced (area self.now) }
    {
        let first = self.start / PAGE_SIZE;
        if ppn < first || ppn - first >= self.frames() {
            return None;
        }
        Some(Frame(ppn - first))
    }

    /// The word at a physical address, little-endian.
    pub fn word(&self, pa: u32) -> u32
        requires aligned { pa % 4 ≡ 0 }
        requires inside { IsInside (area self.now) pa }
        ensures { words self.now pa ≡ Some result }
    {
        let f = Frame(pa / PAGE_SIZE - self.start / PAGE_SIZE);
        let at = (pa % PAGE_SIZE) as usize;
        LittleEndian::read_u32(&self.page(f)[at..])
    }

    /// Writes the word at a physical address, little-endian. All other words stay.
    pub fn set_word(&mut self, pa: u32, v: u32)
        requires aligned { pa % 4 ≡ 0 }
        requires inside { IsInside (area self.old) pa }
        ensures words { words self.new ≡ put_at nat_eq (words self.old) pa (Some v) }
        ensures pages { pages self.new ≡ put_at nat_eq (pages self.old) (frame_at (area self.old) pa)
            (with_word (pages self.old (frame_at (area self.old) pa)) (pa % 4096) v) }
        ensures area { area self.new ≡ area self.old }
    {
        let f = Frame(pa / PAGE_SIZE - self.start / PAGE_SIZE);
        let at = (pa % PAGE_SIZE) as usize;
        let page = self.page_mut(f);
        LittleEndian::write_u32(&mut page[at..], v);
    }

    /// Law: what each frame holds are bytes.
    pub fn pages_are_bytes(&self)
        ensures { (f : ℕ) → All (λ b. b < 256) (pages self.now f) }
    {
        are_bytes(self.bytes.as_slice());
    }
}

// All of its fields: the start, and how many bytes.
#[cfg(test)]
pub(crate) fn parts(ram: &Ram) -> (u32, usize) {
    let Ram { start, bytes } = ram;
    (*start, bytes.len())
}
