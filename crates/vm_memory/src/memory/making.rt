//! Pages are made.

ghost use Rattle.xk_base.specs.Tables.Circle.{is_pid};
ghost use Rattle.std.specs.Prelude.{◌≡◌, ℕ, ◌+◌, ◌<◌, ◌≤◌, true, IfOk, OnOk, OnErr};
ghost use Rattle.ledger_model.specs.Conditions.{CanMake};
ghost use Rattle.ledger_model.specs.Ledger.{pages};
ghost use Rattle.ledger_model.specs.Loans.{bare};
ghost use Rattle.ledger_model.specs.Places.{is_user_place};
ghost use Rattle.ledger_model.specs.Reach.{is_free};
ghost use Rattle.ledger_model.specs.Steps.{make};
ghost use Rattle.phys_pages.specs.Owners.{infos};
ghost use Rattle.xk_base.specs.declared.ids.Slot.{Slot as SlotNumber};
ghost use Rattle.vm_memory.specs.Bytes.{MeansBytes, MeansBytesOver, none_out, pages_out};
ghost use Rattle.xk_ports.specs.Keeping.{KeepsStore};
ghost use Rattle.vm_memory.specs.Pages.Changing.{ChangesPagesAlone, TakesNoSeat};
ghost use Rattle.vm_memory.specs.Pages.Making.{HasMadeFirst, MakesFirst, MakesPages, after_console, after_make, console_answer};
ghost use Rattle.vm_memory.specs.Pages.Making.{make_answer, run_place};
ghost use Rattle.vm_memory.specs.Memory.{IsUsable, capacity_of, frames_for_pages, has_failed, ledger, processes, room_in, size, store_of};
ghost use Rattle.vm_memory.specs.Sound.{IsSound};
ghost use Rattle.vm_memory.specs.Tie.{IsTied};
ghost use Rattle.xk_base.specs.Outside.{Rose};

use crate::memory::Memory;
use page_views::{RunTest, fits};
use phys_pages::Seat;
use xk_base::{Failed, Pid, Place, Right, Slot, Vpn, Window, XousError};
use xk_ports::SwapStore;

impl<W: SwapStore> Memory<W> {
    // Where n pages of a process go: at the named page, or at the least free run.
    fn find_run(&self, pid: Pid, window: Window, at: Option<Vpn>, n: u32) -> Result<Vpn, XousError>
        requires sound { IsSound W.slot_count self.now }
        requires usable { IsUsable self.now }
        requires process { is_pid (processes self.now) pid.0 ≡ true }
        requires some { 1 ≤ n }
        ensures { result ≡ run_place (processes self.now) (ledger W.held self.now) pid window at n }
    {
        let Some(first) = at else {
            return self.free_run(pid, window, n).ok_or(XousError::MemoryInUse);
        };
        if !fits(window, first, n) {
            return Err(XousError::BadAddress);
        }
        if self.any(Place { pid, vpn: first }, n, RunTest::Used) {
            return Err(XousError::MemoryInUse);
        }
        Ok(first)
    }

    // .. and the capacity must hold.
    fn find_room(&self, pid: Pid, window: Window, at: Option<Vpn>, n: u32) -> Result<Vpn, XousError>
        requires sound { IsSound W.slot_count self.now }
        requires usable { IsUsable self.now }
        requires process { is_pid (processes self.now) pid.0 ≡ true }
        requires some { 1 ≤ n }
        ensures { result ≡ make_answer (room_in self.now) (ledger W.held self.now) pid window at n }
    {
        let first = self.find_run(pid, window, at, n)?;
        if self.pages() as u64 + n as u64 > self.cap() as u64 {
            return Err(XousError::OutOfMemory);
        }
        Ok(first)
    }

    // Makes the pages of a free run, for which frames are free, one after another; the search for
    // each frame goes on from the last.
    fn make_pages(&mut self, first: Place, n: u32, right: Right)
        requires sound { IsSound W.slot_count self.old }
        requires usable { IsUsable self.old }
        requires can { CanMake (processes self.old) (capacity_of self.old) (ledger W.held self.old) first n }
        requires frames { self.old.pages + n ≤ frames_for_pages self.old }
        ensures sound { IsSound W.slot_count self.new }
        ensures ledger { ledger W.held self.new ≡ make first n right (ledger W.held self.old) }
        ensures slots { (s : SlotNumber) → infos self.new.owners (Seat.Slot s) ≡ infos self.old.owners (Seat.Slot s) }
        ensures rest { ChangesPagesAlone self.old self.new }
    {
        for i in 0..n {
            let f = self.free_frame();
            let at = Place {
                pid: first.pid,
                vpn: Vpn(first.vpn.0 + i),
            };
            self.place_page(at, right, f);
            self.hand = f.0 + 1;
        }
    }

    // Makes one page in a free frame; where it was the last one, another page goes out, to a slot that
    // is searched for from `next` on.
    fn make_page(&mut self, at: Place, right: Right, next: &mut Slot) -> Result<(), Failed>
        requires sound { IsSound W.slot_count self.old }
        requires usable { IsUsable self.old }
        requires place { is_user_place (processes self.old) at ≡ true }
        requires free { is_free (processes self.old) (ledger W.held self.old) at ≡ true }
        requires room { self.old.pages + 1 ≤ capacity_of self.old }
        ensures made { MakesPages W.SwapStore self.old self.new at 1 right }
        ensures usable { OnOk result (IsUsable self.new) }
        ensures failed { OnErr result (has_failed self.new ≡ true) }
        ensures cause { OnErr result (Rose (W.faults (store_of self.old)) (W.faults (store_of self.new))) }
    {
        let f = self.free_frame();
        let last = self.is_last(f);
        self.failed = true;
        self.place_page(at, right, f);
        self.make_room(f, last, next)
    }

    // Makes the pages of a free run for which pages may have to go out; the searches for each frame and
    // slot go on from the last. Where pages have come in order, the first slot that was never used
    // is the first free one. On Failed the first pages of the run are made.
    fn make_crowded(&mut self, first: Place, n: u32, right: Right) -> Result<(), Failed>
        requires sound { IsSound W.slot_count self.old }
        requires usable { IsUsable self.old }
        requires can { CanMake (processes self.old) (capacity_of self.old) (ledger W.held self.old) first n }
        ensures made { OnOk result (MakesPages W.SwapStore self.old self.new first n right) }
        ensures first { MakesFirst W.SwapStore self.old self.new first n right }
        ensures usable { OnOk result (IsUsable self.new) }
        ensures failed { OnErr result (has_failed self.new ≡ true) }
        ensures cause { OnErr result (Rose (W.faults (store_of self.old)) (W.faults (store_of self.new))) }
    {
        let mut next = Slot(self.pages.saturating_sub(self.page_frames()));
        for i in 0..n {
            let at = Place {
                pid: first.pid,
                vpn: Vpn(first.vpn.0 + i),
            };
            self.make_page(at, right, &mut next)?;
        }
        Ok(())
    }

    // Makes the pages of a free run. Pages go out only where there aren't frames for all pages.
    fn make_run(&mut self, first: Place, n: u32, right: Right) -> Result<(), Failed>
        requires sound { IsSound W.slot_count self.old }
        requires usable { IsUsable self.old }
        requires can { CanMake (processes self.old) (capacity_of self.old) (ledger W.held self.old) first n }
        ensures made { OnOk result (MakesPages W.SwapStore self.old self.new first n right) }
        ensures first { MakesFirst W.SwapStore self.old self.new first n right }
        ensures usable { OnOk result (IsUsable self.new) }
        ensures failed { OnErr result (has_failed self.new ≡ true) }
        ensures cause { OnErr result (Rose (W.faults (store_of self.old)) (W.faults (store_of self.new))) }
        ensures full { OnErr result (frames_for_pages self.old < self.old.pages + n) }
        ensures near { self.old.pages + n ≤ frames_for_pages self.old → none_out self.old ≡ true → none_out self.new ≡ true }
        ensures no_more { self.old.pages + n ≤ frames_for_pages self.old → pages_out self.new ≤ pages_out self.old }
    {
        let near = self.pages as u64 + n as u64 <= self.page_frames() as u64;
        if near {
            self.make_pages(first, n, right);
            return Ok(());
        }
        self.make_crowded(first, n, right)
    }

    /// Makes n pages of zeros, with that right and without a loan, in a window of a process: from
    /// the named page on, or at the least free run. It refuses with `BadAddress` where the run
    /// leaves the window, then with `MemoryInUse` where a place is used or no run is free, then with
    /// `OutOfMemory` past `cap`; nothing changes then. Where there are frames for all pages, none goes
    /// out, and it takes time by n and up to two passes over the frames; else other pages may go out, and
    /// it takes time by n and some passes over the frames and the slots. These passes aren't made
    /// again where the last call left one frame free and no page has gone since. `Failed`, of the
    /// store, may leave the first pages of the run.
    pub fn make(
        &mut self,
        pid: Pid,
        window: Window,
        at: Option<Vpn>,
        n: u32,
        right: Right,
    ) -> Result<Result<Vpn, XousError>, Failed>
        requires sound { IsSound W.slot_count self.old }
        requires usable { IsUsable self.old }
        requires process { is_pid (processes self.old) pid.0 ≡ true }
        requires some { 1 ≤ n }
        ensures sound { IsSound W.slot_count self.new }
        ensures answer { IfOk result
            (λ answer. answer ≡ make_answer (room_in self.old) (ledger W.held self.old) pid window at n) }
        ensures rights { IfOk result
            (λ answer. bare (ledger W.held self.new) ≡ bare (after_make pid n right answer (ledger W.held self.old))) }
        ensures whole { MeansBytesOver W.SwapStore self.old self.new
            → IfOk result (λ answer. ledger W.held self.new ≡ after_make pid n right answer (ledger W.held self.old)) }
        ensures refused { IfOk result (λ answer. OnErr answer (self.new ≡ self.old)) }
        ensures usable { OnOk result (IsUsable self.new) }
        ensures failed { OnErr result (has_failed self.new ≡ true) }
        ensures partial { OnErr result (HasMadeFirst (MeansBytesOver W.SwapStore self.old self.new)
            (make_answer (room_in self.old) (ledger W.held self.old) pid window at n)
            pid n right (ledger W.held self.old) (ledger W.held self.new)) }
        ensures cause { OnErr result (Rose (W.faults (store_of self.old)) (W.faults (store_of self.new))) }
        ensures full { OnErr result (frames_for_pages self.old < pages (processes self.old) (ledger W.held self.old) + n) }
        // A page goes out only where there aren't frames for all pages.
        ensures near { pages (processes self.old) (ledger W.held self.old) + n ≤ frames_for_pages self.old → none_out self.old ≡ true
            → none_out self.new ≡ true }
        ensures no_more { pages (processes self.old) (ledger W.held self.old) + n ≤ frames_for_pages self.old
            → pages_out self.new ≤ pages_out self.old }
        ensures tie { IsTied W.held self.new }
        ensures size { size self.new ≡ size self.old }
        ensures store { KeepsStore W.SwapStore (store_of self.old) (store_of self.new) }
    {
        match self.find_room(pid, window, at, n) {
            Err(error) => Ok(Err(error)),
            Ok(first) => {
                self.make_run(Place { pid, vpn: first }, n, right)?;
                Ok(Ok(first))
            }
        }
    }

    /// Maps the console's page, to be loaded from and, with `w`, stored to, in the Map window of a
    /// process: at the named page, or at the least free one. It refuses with `MemoryInUse` where the
    /// console is mapped, then with `BadAddress` where the page isn't in the window, and
    /// `MemoryInUse` where it is used or none is free; nothing changes then.
    pub fn make_console(&mut self, pid: Pid, at: Option<Vpn>, w: bool) -> Result<Vpn, XousError>
        requires sound { IsSound W.slot_count self.old }
        requires usable { IsUsable self.old }
        requires process { is_pid (processes self.old) pid.0 ≡ true }
        ensures sound { IsSound W.slot_count self.new }
        ensures answer { result ≡ console_answer (processes self.old) (ledger W.held self.old) pid at }
        ensures ledger { ledger W.held self.new ≡ after_console pid w result (ledger W.held self.old) }
        ensures refused { OnErr result (self.new ≡ self.old) }
        ensures usable { IsUsable self.new }
        ensures tie { IsTied W.held self.new }
        ensures size { size self.new ≡ size self.old }
        ensures store { store_of self.new ≡ store_of self.old }
        // No page goes out, and none comes in.
        ensures seats { TakesNoSeat self.old self.new }
        ensures none { none_out self.old ≡ true → none_out self.new ≡ true }
        ensures means { MeansBytes W.SwapStore self.old → MeansBytes W.SwapStore self.new }
    {
        if self.console_mapped() {
            return Err(XousError::MemoryInUse);
        }
        match self.find_run(pid, Window::Map, at, 1) {
            Err(error) => Err(error),
            Ok(first) => {
                self.place_console(Place { pid, vpn: first }, w);
                Ok(first)
            }
        }
    }
}
