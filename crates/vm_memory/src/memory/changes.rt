//! The changes of one page: it comes, goes, or gets another right, in its entry and in the owner table.

ghost use Rattle.xk_base.specs.Tables.Circle.{is_pid};
ghost use Rattle.std.specs.Prelude.{◌≡◌, ◌≢◌, ℕ, ◌+◌, ◌*◌, ◌<◌, ◌≤◌, Some, None, true, false, nat_eq, IfNone, IfSome, IsSome, IsTrue};
ghost use Rattle.xk_base.specs.Tables.Counting.{put_at};
ghost use Rattle.xk_base.specs.Numbers.Windows.{window_at};
ghost use Rattle.ledger_model.specs.Conditions.{CanMakeConsole};
ghost use Rattle.ledger_model.specs.Places.{in_run, is_user_place, same_place};
ghost use Rattle.ledger_model.specs.Reach.{is_free, role_at};
ghost use Rattle.ledger_model.specs.RunTests.{asks_more, is_on_loan};
ghost use Rattle.ledger_model.specs.Steps.{make, make_console, reduce, remove, zero_page};
ghost use Rattle.phys_pages.specs.Owners.{AreFramesUsed, AreSlotsUsed, HasSeat, extent, frame_seat, infos, seat_eq};
ghost use Rattle.phys_pages.specs.Ram.{area, pages};
ghost use Rattle.sv32_space.specs.Agreement.{HasUnusedFrame, owned_by};
ghost use Rattle.sv32_space.specs.declared.sides.Entry.TheVariants.{At, Free, OnConsole};
ghost use Rattle.sv32_space.specs.Spaces.{IsMade};
ghost use Rattle.sv32_space.specs.SpelledEntries.{IsEntry, entries, entry_of_kind};
ghost use Rattle.sv32_space.specs.Spellings.{IsKind};
ghost use Rattle.vm_memory.specs.Bytes.{used_frames};
ghost use Rattle.vm_memory.specs.Pages.Changing.{IsFrameAtHand, IsFreeFrame, ChangesPagesAlone, own_right, owned_in, TakesNoSeat};
ghost use Rattle.vm_memory.specs.Memory.{IsUsable, capacity_of, frames_for_pages, ledger, processes, ram_of};
ghost use Rattle.vm_memory.specs.Sound.{IsSound};

use crate::memory::Memory;
use phys_pages::{PageInfo, Ram, Seat};
use sv32_space::{Entry, Side, set_entry};
use xk_base::limits::TABLE_FRAMES;
use xk_base::{Frame, Place, Right, Slot};
use xk_ports::SwapStore;

// Where the search for a frame goes on after pages have gone: from the first frame on, where more are
// left than stand in frames, since the frame before that at hand needn't be the only free one then.
pub(crate) fn hand_left(gone: u32, frames: u32, pages: u32, hand: u32) -> u32
    ensures kept { gone ≡ 0 → result ≡ hand }
    ensures anew { 1 ≤ gone → frames < pages → result ≡ 0 }
{
    if 1 <= gone && frames < pages {
        return 0;
    }
    hand
}

/// What of its own, not on loan, a process has at a place.
#[derive(Clone, Copy, Debug, PartialEq, Eq)]
pub(crate) enum Owned {
    Nothing,
    Page(Right, Seat),
    /// The console, and whether it may be stored to.
    Console(bool),
}

// The right of a page's owner; `None` where it is on loan.
fn own_right(side: Side) -> Option<Right>
    ensures { result ≡ own_right side }
{
    match side {
        Side::Own(right) => Some(right),
        Side::LentOut(_) => None,
        Side::LentIn => None,
        Side::MutOut { x: _ } => None,
        Side::MutIn => None,
    }
}

// Fills a frame with zeros.
#[tactic(auto, using(phys_pages::proofs::PageLemmas::page_writes, crate::proofs::Changing::PageStepLemmas::cleared))]
fn clear(ram: &mut Ram, f: Frame)
    requires { f.0 < (area ram.old).frames }
    ensures pages { pages ram.new ≡ put_at nat_eq (pages ram.old) f.0 zero_page }
    ensures area { area ram.new ≡ area ram.old }
{
    ram.page_mut(f).fill(0);
}

impl<W: SwapStore> Memory<W> {
    // What of its own the process has at a place.
    fn owned(&self, at: Place) -> Owned
        requires sound { IsSound W.slot_count self.now }
        ensures { result ≡ owned_in (entries (processes self.now) (ram_of self.now) at) }
    {
        if !self.has_place(at) {
            return Owned::Nothing;
        }
        match self.entry(at) {
            Entry::Free => Owned::Nothing,
            Entry::At { side, seat } => match own_right(side) {
                Some(right) => Owned::Page(right, seat),
                None => Owned::Nothing,
            },
            Entry::OnConsole { w } => Owned::Console(w),
        }
    }

    // The first free frame from one on, or else the first of all, if any is free.
    fn next_frame(&self, from: Frame) -> Option<Frame>
        requires sound { IsSound W.slot_count self.now }
        requires low { 21 * processes self.now ≤ from.0 }
        ensures within { IfSome result (λ f. HasSeat (extent self.now.owners) (Seat.Frame f)) }
        ensures found { IfSome result (λ f. infos self.now.owners (Seat.Frame f) ≡ None) }
        ensures here { IsFreeFrame self.now.owners from.0 → IfSome result (λ f. from.0 ≡ f.0) }
        ensures none { IfNone result (AreFramesUsed self.now.owners ((extent self.now.owners).first + (extent self.now.owners).frames)) }
    {
        for k in from.0..self.ram.frames() {
            if self.owners.info(Seat::Frame(Frame(k))).is_none() {
                return Some(Frame(k));
            }
        }
        self.owners.free_frame()
    }

    // The first free slot from one on, or else the first of all, if any is free.
    pub(crate) fn next_slot(&self, from: Slot) -> Option<Slot>
        requires sound { IsSound W.slot_count self.now }
        ensures within { IfSome result (λ s. HasSeat (extent self.now.owners) (Seat.Slot s)) }
        ensures found { IfSome result (λ s. infos self.now.owners (Seat.Slot s) ≡ None) }
        ensures none { IfNone result (AreSlotsUsed self.now.owners (extent self.now.owners).slots) }
    {
        for k in from.0..self.slots {
            if self.owners.info(Seat::Slot(Slot(k))).is_none() {
                return Some(Slot(k));
            }
        }
        self.owners.free_slot()
    }

    // Where the search for a free frame begins: at the frame before that at hand, which is where the
    // last exchange left one free.
    fn search_start(&self) -> Frame
        requires sound { IsSound W.slot_count self.now }
        ensures low { 21 * processes self.now ≤ result.0 }
        ensures hand { (g : ℕ) → self.now.hand ≡ g + 1 → HasSeat (extent self.now.owners) (frame_seat g) → g ≡ result.0 }
    {
        let first = TABLE_FRAMES * self.procs;
        let before = self.hand <= first;
        if before {
            return Frame(first);
        }
        let past = self.ram.frames() < self.hand;
        if past {
            return Frame(first);
        }
        Frame(self.hand - 1)
    }

    // A free frame: that before the one at hand, if it is free.
    pub(crate) fn free_frame(&self) -> Frame
        requires sound { IsSound W.slot_count self.now }
        requires usable { IsUsable self.now }
        ensures free { IsFreeFrame self.now.owners result.0 }
        ensures hand { IsFrameAtHand self.now result.0 }
    {
        let from = self.search_start();
        match self.next_frame(from) {
            Some(f) => f,
            None => unreachable!(),
        }
    }

    // Whether a free frame is known to be the only one: an exchange left it free, before that at
    // hand, and there are more pages than stand in frames.
    pub(crate) fn is_last(&self, f: Frame) -> bool
        requires sound { IsSound W.slot_count self.now }
        requires frame { IsFreeFrame self.now.owners f.0 }
        ensures { result ≡ true → frames_for_pages self.now ≤ used_frames self.now.owners }
    {
        let most = self.page_frames();
        f.0 + 1 == self.hand && most < self.pages
    }

    // Whether a frame is free, where it isn't known that all are used; the search begins at one.
    pub(crate) fn is_frame_free(&self, from: Frame, full: bool) -> bool
        requires sound { IsSound W.slot_count self.now }
        requires low { 21 * processes self.now ≤ from.0 }
        requires full { full ≡ true → frames_for_pages self.now < used_frames self.now.owners }
        ensures yes { result ≡ true → HasUnusedFrame (extent self.now.owners) (infos self.now.owners) }
        ensures no { result ≡ false
            → AreFramesUsed self.now.owners ((extent self.now.owners).first + (extent self.now.owners).frames) }
    {
        if full {
            return false;
        }
        self.next_frame(from).is_some()
    }

    // A page of zeros comes to a free place, in a free frame.
    pub(crate) fn place_page(&mut self, at: Place, right: Right, f: Frame)
        requires sound { IsSound W.slot_count self.old }
        requires place { is_user_place (processes self.old) at ≡ true }
        requires free { is_free (processes self.old) (ledger W.held self.old) at ≡ true }
        requires room { self.old.pages + 1 ≤ capacity_of self.old }
        // while an exchange is under way, this may be the last free frame
        requires left { IsUsable self.old → self.old.pages + 1 ≤ frames_for_pages self.old }
        requires frame { IsFreeFrame self.old.owners f.0 }
        requires hand { frames_for_pages self.old ≤ self.old.pages → IsFrameAtHand self.old f.0 }
        ensures sound { IsSound W.slot_count self.new }
        ensures ledger { ledger W.held self.new ≡ make at 1 right (ledger W.held self.old) }
        ensures owners { infos self.new.owners ≡ put_at seat_eq (infos self.old.owners) (Seat.Frame f) (Some (owned_by at)) }
        ensures pages { self.new.pages ≡ self.old.pages + 1 }
        ensures rest { ChangesPagesAlone self.old self.new }
    {
        clear(&mut self.ram, f);
        let entry = Entry::At {
            side: Side::Own(right),
            seat: Seat::Frame(f),
        };
        set_entry(&mut self.ram, at, entry);
        let info = PageInfo {
            home: Some(at),
            loan: None,
        };
        self.owners.set(Seat::Frame(f), Some(info));
        self.pages += 1;
    }

    // The console comes to a free place.
    pub(crate) fn place_console(&mut self, at: Place, w: bool)
        requires sound { IsSound W.slot_count self.old }
        requires can { CanMakeConsole (processes self.old) (ledger W.held self.old) at }
        ensures sound { IsSound W.slot_count self.new }
        ensures ledger { ledger W.held self.new ≡ make_console at w (ledger W.held self.old) }
        ensures rest { ChangesPagesAlone self.old self.new }
        ensures seats { TakesNoSeat self.old self.new }
    {
        set_entry(&mut self.ram, at, Entry::OnConsole { w });
    }

    // The page of a place goes, if there is one.
    pub(crate) fn drop_page(&mut self, at: Place)
        requires sound { IsSound W.slot_count self.old }
        requires not_lent { is_on_loan (role_at (processes self.old) (ledger W.held self.old) at) ≡ false }
        ensures sound { IsSound W.slot_count self.new }
        ensures ledger { ledger W.held self.new ≡ remove (in_run at 1) (ledger W.held self.old) }
        ensures rest { ChangesPagesAlone self.old self.new }
        ensures seats { TakesNoSeat self.old self.new }
    {
        let frames = self.page_frames();
        match self.owned(at) {
            Owned::Nothing => {}
            Owned::Page(_, seat) => {
                set_entry(&mut self.ram, at, Entry::Free);
                self.owners.set(seat, None);
                self.pages -= 1;
                self.hand = hand_left(1, frames, self.pages, self.hand);
            }
            Owned::Console(_) => set_entry(&mut self.ram, at, Entry::Free),
        }
    }

    // The page of a place gets another right, if there is one.
    pub(crate) fn set_right(&mut self, at: Place, right: Right)
        requires sound { IsSound W.slot_count self.old }
        requires not_lent { is_on_loan (role_at (processes self.old) (ledger W.held self.old) at) ≡ false }
        requires within { asks_more right ((ledger W.held self.old).home at) ≡ false }
        ensures sound { IsSound W.slot_count self.new }
        ensures ledger { ledger W.held self.new ≡ reduce (in_run at 1) right (ledger W.held self.old) }
        ensures rest { ChangesPagesAlone self.old self.new }
        ensures seats { TakesNoSeat self.old self.new }
    {
        match self.owned(at) {
            Owned::Nothing => {}
            Owned::Page(_, seat) => {
                let side = Side::Own(right);
                set_entry(&mut self.ram, at, Entry::At { side, seat });
            }
            Owned::Console(_) => {
                set_entry(&mut self.ram, at, Entry::OnConsole { w: right.w });
            }
        }
    }
}
