//! Whose page is at which seat.

ghost use Rattle.std.specs.Prelude.{◌≡◌, ◌+◌, ◌<◌, ◌≤◌, ℕ, None, true, length, replicate, is_some, IfOk, IfSome, IfNone};
ghost use Rattle.std.specs.Option.{option_copied};
ghost use Rattle.xk_base.specs.Tables.RowMap.{row_map};
ghost use Rattle.xk_base.specs.declared.limits.TheConstants.{FRAME_LIMIT, SLOT_LIMIT};

use crate::infos::{PageInfo, Seat};
use std::alloc::Global;
use std::marker::Model;
use xk_base::{Frame, NoMemory, Slot};

/// The owner table: for each seat, whose page is there. It has the frames from a first one on, and
/// the slots from 0 on.
#[derive(Debug, Drop)]
pub struct Owners {
    first: Frame,
    frames: Vec<Option<PageInfo>>,
    slots: Vec<Option<PageInfo>>,
}

impl Model for Owners {
    ghost use Rattle.std.specs.Prelude.{◌+◌, ◌≤◌, length};
    ghost use Rattle.phys_pages.specs.Owners.{OwnerTable};
    ghost use Rattle.xk_base.specs.declared.limits.TheConstants.{FRAME_LIMIT, SLOT_LIMIT};

    ghost Value = { OwnerTable };

    ghost view = { λ o. record { first = o.first.0; frames = o.frames.items; slots = o.slots.items } };

    ghost invariant = { λ o. (o.first.0 + length o.frames.items ≤ FRAME_LIMIT) × (length o.slots.items ≤ SLOT_LIMIT) };
}

/// So many free seats.
fn free_seats(alloc: Global, count: u32) -> Result<Vec<Option<PageInfo>>, NoMemory>
    ensures { IfOk result (λ v. v.items ≡ replicate count None) }
{
    match vec![in alloc; None; count as usize] {
        Ok(seats) => Ok(seats),
        Err(_) => Err(NoMemory),
    }
}

/// The first free one of the seats. It takes time by how many used ones stand before it.
fn first_free(seats: &[Option<PageInfo>]) -> Option<usize>
    ensures within { IfSome result (λ k. k < length seats.now) }
    ensures found { IfSome result (λ k. row_map seats.now k ≡ None) }
    ensures least { IfSome result (λ k. (j : ℕ) → j < k → is_some (row_map seats.now j) ≡ true) }
    ensures none { IfNone result ((j : ℕ) → j < length seats.now → is_some (row_map seats.now j) ≡ true) }
{
    seats.iter().position(|seat| seat.is_none())
}

#[tactic(auto, using(xk_base::proofs::RowMapLemmas::row_map_laws), unfolding(crate::specs::Owners::extent, crate::specs::Owners::infos))]
impl Owners {
    ghost use Rattle.xk_base.specs.Tables.Counting.{put_at};
    ghost use Rattle.phys_pages.specs.Owners.{extent, infos, no_infos, seat_eq, HasSeat, AreFramesUsed, AreSlotsUsed};

    /// A table of `frames` frames from `first` on and of `slots` slots, all free. All memory is taken
    /// here.
    pub fn new(alloc: Global, first: Frame, frames: u32, slots: u32) -> Result<Owners, NoMemory>
        requires few_frames { first.0 + frames ≤ FRAME_LIMIT }
        requires few_slots { slots ≤ SLOT_LIMIT }
        ensures extent { IfOk result (λ o. extent o ≡ record { first = first.0; frames = frames; slots = slots }) }
        ensures free { IfOk result (λ o. infos o ≡ no_infos) }
    {
        let frames = free_seats(alloc, frames)?;
        let slots = free_seats(alloc, slots)?;
        Ok(Owners {
            first,
            frames,
            slots,
        })
    }

    /// The least free frame; `None` exactly where all are used. It takes time by how many used ones
    /// stand before it: a caller that takes many goes on from the last one by `info`.
    pub fn free_frame(&self) -> Option<Frame>
        ensures within { IfSome result (λ f. HasSeat (extent self.now) (Seat.Frame f)) }
        ensures found { IfSome result (λ f. infos self.now (Seat.Frame f) ≡ None) }
        ensures least { IfSome result (λ f. AreFramesUsed self.now f.0) }
        ensures none { IfNone result (AreFramesUsed self.now ((extent self.now).first + (extent self.now).frames)) }
    {
        let k = first_free(&self.frames)?;
        Some(Frame(self.first.0 + k as u32))
    }

    /// The least free slot; `None` exactly where all are used. It takes time by how many used ones
    /// stand before it.
    pub fn free_slot(&self) -> Option<Slot>
        ensures within { IfSome result (λ s. HasSeat (extent self.now) (Seat.Slot s)) }
        ensures found { IfSome result (λ s. infos self.now (Seat.Slot s) ≡ None) }
        ensures least { IfSome result (λ s. AreSlotsUsed self.now s.0) }
        ensures none { IfNone result (AreSlotsUsed self.now (extent self.now).slots) }
    {
        let k = first_free(&self.slots)?;
        Some(Slot(k as u32))
    }

    /// Whose page is at a seat of the table; `None` exactly where the seat is free.
    pub fn info(&self, at: Seat) -> Option<&PageInfo>
        requires { HasSeat (extent self.now) at }
        ensures { option_copied result ≡ infos self.now at }
    {
        match at {
            Seat::Frame(f) => self.frames[(f.0 - self.first.0) as usize].as_ref(),
            Seat::Slot(s) => self.slots[s.0 as usize].as_ref(),
        }
    }

    /// Says whose page is at a seat of the table, or that it is free. All other seats stay.
    pub fn set(&mut self, at: Seat, info: Option<PageInfo>)
        requires { HasSeat (extent self.old) at }
        ensures infos { infos self.new ≡ put_at seat_eq (infos self.old) at info }
        ensures extent { extent self.new ≡ extent self.old }
    {
        match at {
            Seat::Frame(f) => self.frames[(f.0 - self.first.0) as usize] = info,
            Seat::Slot(s) => self.slots[s.0 as usize] = info,
        }
    }

    /// Law: the table has at most 16,384 slots, and its frames end at or below frame 16,384.
    pub fn seats_are_few(&self)
        ensures frames { (extent self.now).first + (extent self.now).frames ≤ FRAME_LIMIT }
        ensures slots { (extent self.now).slots ≤ SLOT_LIMIT }
    {
        let _ = &self.slots;
    }
}

// All of its fields: the first frame, and how many frames and slots.
#[cfg(test)]
pub(crate) fn parts(owners: &Owners) -> (Frame, usize, usize) {
    let Owners {
        first,
        frames,
        slots,
    } = owners;
    (*first, frames.len(), slots.len())
}
