//! Pages come in to frames, and others go out to slots of the store in their place.
//!
//! An exchange has two halves: a page comes into the frame that is free, then, where no frame is
//! free any more, another page goes out to a free slot. Between the halves the memory counts as
//! failed, and so it stays where the store fails.

ghost use Rattle.std.specs.Prelude.{◌≡◌, ◌≢◌, ◌+◌, ◌*◌, ◌<◌, ◌≤◌, ℕ, Some, None, true, false, IfOk, OnOk, OnErr};
ghost use Rattle.ledger_model.specs.Reach.{owner_may};
ghost use Rattle.phys_pages.specs.Owners.{AreFramesUsed, HasSeat, IsUsed, extent, infos};
ghost use Rattle.sv32_space.specs.Agreement.{HasUnusedFrame};
ghost use Rattle.sv32_space.specs.EntryReach.{entry_may, side_may};
ghost use Rattle.sv32_space.specs.SpelledEntries.{entries};
ghost use Rattle.sv32_space.specs.declared.sides.Entry.TheVariants.{At};
ghost use Rattle.sv32_space.specs.declared.sides.Side.{Side};
ghost use Rattle.vm_memory.specs.Bytes.{MeansBytesOver, is_out, none_out, pages_out, used_frames, used_slots};
ghost use Rattle.vm_memory.specs.Memory.{IsUsable, frames_for_pages, has_failed, ledger, processes, ram_of, store_of};
ghost use Rattle.vm_memory.specs.Pages.Exchanging.{BringsIn, IsInFrame, MovesPages, slot_reached};
ghost use Rattle.vm_memory.specs.Sound.{IsSound};
ghost use Rattle.page_views.specs.EntryAccess.{entry_target, is_given_target};
ghost use Rattle.xk_base.specs.Numbers.Windows.{page_of};
ghost use Rattle.xk_base.specs.Outside.{Rose};
ghost use Rattle.xk_base.specs.declared.ids.Place.{Place};

use crate::memory::Memory;
use page_views::Target;
use phys_pages::Seat;
use sv32_space::{Entry, Side};
use swap_map::{bring, evict};
use xk_base::limits::{PAGE_SIZE, TABLE_FRAMES};
use xk_base::{Access, Failed, Frame, Pid, Place, Right, Slot, Vpn};
use xk_ports::SwapStore;

// Whether an owner whose page isn't on loan has the access.
fn owner_gives(right: Right, access: Access) -> bool
    ensures { result ≡ owner_may right access }
{
    match access {
        Access::Load => true,
        Access::Store => right.w,
        Access::Fetch => right.x,
    }
}

// Whether a side of a page gives its process the access.
fn side_gives(side: Side, access: Access) -> bool
    ensures { result ≡ side_may side access }
{
    match side {
        Side::Own(right) => owner_gives(right, access),
        Side::LentOut(right) => owner_gives(
            Right {
                w: false,
                x: right.x,
            },
            access,
        ),
        Side::LentIn => owner_gives(Right { w: false, x: false }, access),
        Side::MutOut { x: _ } => false,
        Side::MutIn => owner_gives(Right { w: true, x: false }, access),
    }
}

impl<W: SwapStore> Memory<W> {
    // The frame, but not that one, whose page goes out: the search goes round from the one at hand.
    fn victim(&self, keep: Frame) -> Frame
        requires sound { IsSound W.slot_count self.now }
        ensures within { HasSeat (extent self.now.owners) (Seat.Frame result) }
        ensures other { result.0 ≢ keep.0 }
    {
        let first = TABLE_FRAMES * self.procs;
        let end = self.ram.frames();
        let start = if first <= self.hand && self.hand < end {
            self.hand
        } else {
            first
        };
        if start != keep.0 {
            return Frame(start);
        }
        if start + 1 < end {
            return Frame(start + 1);
        }
        Frame(first)
    }

    // Another page than that in the frame just filled goes out, where no frame is free. On Ok the
    // memory may be used again.
    pub(crate) fn put_out(&mut self, keep: Frame, to: Slot) -> Result<(), Failed>
        requires sound { IsSound W.slot_count self.old }
        requires under_way { has_failed self.old ≡ true }
        requires full { AreFramesUsed self.old.owners ((extent self.old.owners).first + (extent self.old.owners).frames) }
        requires slot { HasSeat (extent self.old.owners) (Seat.Slot to) }
        requires free { infos self.old.owners (Seat.Slot to) ≡ None }
        ensures moves { MovesPages W.SwapStore self.old self.new }
        // bytes also where no page is out before and after
        ensures over { MeansBytesOver W.SwapStore self.old self.new → ledger W.held self.new ≡ ledger W.held self.old }
        ensures none { none_out self.new ≡ true → none_out self.old ≡ true }
        ensures one { pages_out self.new ≤ pages_out self.old + 1 }
        ensures out { OnOk result (pages_out self.new ≡ pages_out self.old + 1) }
        ensures keep { (at : Place) (side : Side) → entries (processes self.old) (ram_of self.old) at ≡ Some (At side (Seat.Frame keep))
            → entries (processes self.new) (ram_of self.new) at ≡ Some (At side (Seat.Frame keep)) }
        ensures usable { OnOk result (IsUsable self.new) }
        ensures failed { OnErr result (has_failed self.new ≡ true) }
        ensures cause { OnErr result (Rose (W.faults (store_of self.old)) (W.faults (store_of self.new))) }
    {
        let f = self.victim(keep);
        evict(&mut self.ram, &mut self.owners, &mut self.store, f, to)?;
        self.hand = f.0 + 1;
        self.failed = false;
        Ok(())
    }

    // The second half of an exchange: where no frame is free, another page than that in the frame
    // just filled goes out, to a slot that is searched for from `next` on. On Ok the memory may be used again.
    pub(crate) fn make_room(
        &mut self,
        keep: Frame,
        full: bool,
        next: &mut Slot,
    ) -> Result<(), Failed>
        requires sound { IsSound W.slot_count self.old }
        requires under_way { has_failed self.old ≡ true }
        requires kept { IsUsed self.old.owners (Seat.Frame keep) }
        requires full { full ≡ true → frames_for_pages self.old < used_frames self.old.owners }
        ensures moves { MovesPages W.SwapStore self.old self.new }
        // bytes also where no page is out before and after
        ensures over { MeansBytesOver W.SwapStore self.old self.new → ledger W.held self.new ≡ ledger W.held self.old }
        ensures none { none_out self.new ≡ true → none_out self.old ≡ true }
        ensures one { pages_out self.new ≤ pages_out self.old + 1 }
        ensures keep { (at : Place) (side : Side) → entries (processes self.old) (ram_of self.old) at ≡ Some (At side (Seat.Frame keep))
            → entries (processes self.new) (ram_of self.new) at ≡ Some (At side (Seat.Frame keep)) }
        ensures usable { OnOk result (IsUsable self.new) }
        ensures failed { OnErr result (has_failed self.new ≡ true) }
        ensures cause { OnErr result (Rose (W.faults (store_of self.old)) (W.faults (store_of self.new))) }
    {
        if self.is_frame_free(keep, full) {
            self.failed = false;
            self.hand = keep.0 + 1;
            return Ok(());
        }
        let Some(to) = self.next_slot(*next) else {
            unreachable!();
        };
        *next = Slot(to.0 + 1);
        self.put_out(keep, to)
    }

    // Whether a frame is free while a slot is. None is where there are as many pages as there may be,
    // so that none is searched for then.
    fn has_free_frame(&self, from: Frame, full: bool) -> bool
        requires sound { IsSound W.slot_count self.now }
        requires low { 21 * processes self.now ≤ from.0 }
        requires full { full ≡ true → frames_for_pages self.now < used_frames self.now.owners }
        requires spare { used_slots self.now.owners < (extent self.now.owners).slots }
        ensures yes { result ≡ true → HasUnusedFrame (extent self.now.owners) (infos self.now.owners) }
        ensures no { result ≡ false
            → AreFramesUsed self.now.owners ((extent self.now.owners).first + (extent self.now.owners).frames) }
    {
        if self.pages == self.cap() {
            return false;
        }
        self.is_frame_free(from, full)
    }

    // Brings the page of a slot into a frame. Where no other frame is free, another page goes out to
    // that slot.
    fn exchange(&mut self, from: Slot) -> Result<(), Failed>
        requires sound { IsSound W.slot_count self.old }
        requires usable { IsUsable self.old }
        requires used { IsUsed self.old.owners (Seat.Slot from) }
        ensures moves { MovesPages W.SwapStore self.old self.new }
        ensures no_more { pages_out self.new ≤ pages_out self.old }
        ensures near { OnOk result ((at : Place) (side : Side) → entries (processes self.old) (ram_of self.old) at
            ≡ Some (At side (Seat.Slot from))
            → IsInFrame (entries (processes self.new) (ram_of self.new) at) side) }
        ensures usable { OnOk result (IsUsable self.new) }
        ensures failed { OnErr result (has_failed self.new ≡ true) }
        ensures cause { OnErr result (Rose (W.faults (store_of self.old)) (W.faults (store_of self.new))) }
    {
        let f = self.free_frame();
        let last = self.is_last(f);
        self.failed = true;
        bring(&mut self.ram, &mut self.owners, &mut self.store, from, f)?;
        if self.has_free_frame(f, last) {
            self.failed = false;
            return Ok(());
        }
        self.put_out(f, from)
    }

    // The slot of the page that the process reaches at a place by the access, if it is out.
    fn slot_reached(&self, at: Place, access: Access) -> Option<Slot>
        requires sound { IsSound W.slot_count self.now }
        ensures { result ≡ slot_reached (entries (processes self.now) (ram_of self.now) at) access }
    {
        if !self.has_place(at) {
            return None;
        }
        match self.entry(at) {
            Entry::Free => None,
            Entry::At { side, seat } => match seat {
                Seat::Frame(_) => None,
                Seat::Slot(s) => side_gives(side, access).then_some(s),
            },
            Entry::OnConsole { w: _ } => None,
        }
    }

    // Whether the process has the access at a place, near or not.
    pub(crate) fn gives(&self, at: Place, access: Access) -> bool
        requires sound { IsSound W.slot_count self.now }
        ensures { result ≡ entry_may (entries (processes self.now) (ram_of self.now) at) access }
    {
        if !self.has_place(at) {
            return false;
        }
        match self.entry(at) {
            Entry::Free => false,
            Entry::At { side, seat: _ } => side_gives(side, access),
            Entry::OnConsole { w } => owner_gives(Right { w, x: false }, access),
        }
    }

    // Where an access at a virtual address leads. A page that the process reaches there by the access
    // and that is out comes in.
    pub(crate) fn find_near(&mut self, pid: Pid, va: u32, access: Access) -> Result<Target, Failed>
        requires sound { IsSound W.slot_count self.old }
        requires usable { IsUsable self.old }
        ensures brings { BringsIn W.SwapStore self.old self.new }
        ensures target { IfOk result
            (λ target. target ≡ entry_target (entries (processes self.new) (ram_of self.new) (page_of pid va)) access) }
        ensures given { IfOk result
            (λ target. is_given_target target ≡ entry_may (entries (processes self.new) (ram_of self.new) (page_of pid va)) access) }
        ensures usable { OnOk result (IsUsable self.new) }
        ensures failed { OnErr result (has_failed self.new ≡ true) }
        ensures out { OnErr result (is_out self.old (page_of pid va) ≡ true) }
        ensures cause { OnErr result (Rose (W.faults (store_of self.old)) (W.faults (store_of self.new))) }
    {
        let found = self.find(pid, va, access);
        if found.is_given() {
            return Ok(found);
        }
        let at = Place {
            pid,
            vpn: Vpn(va / PAGE_SIZE),
        };
        match self.slot_reached(at, access) {
            None => Ok(Target::Nothing),
            Some(slot) => {
                self.exchange(slot)?;
                Ok(self.find(pid, va, access))
            }
        }
    }
}
