//! What stands at a place, by its entry, and where an access leads.

ghost use Rattle.xk_base.specs.Tables.Circle.{is_pid};
ghost use Rattle.std.specs.Prelude.{◌≡◌, ℕ, ◌<◌, Some, true, IsSome};
ghost use Rattle.ledger_model.specs.Places.{is_user_place};
ghost use Rattle.phys_pages.specs.Ram.{area};
ghost use Rattle.sv32_space.specs.SpelledEntries.{entries};
ghost use Rattle.vm_memory.specs.Bytes.{is_near};
ghost use Rattle.page_views.specs.EntryAccess.{entry_target, is_given_target};
ghost use Rattle.xk_base.specs.Numbers.Windows.{page_of, window_at};
ghost use Rattle.page_views.specs.Here.{here_at};
ghost use Rattle.vm_memory.specs.Loaning.Lending.{frame_named};
ghost use Rattle.vm_memory.specs.Memory.{ledger, processes, ram_of};
ghost use Rattle.vm_memory.specs.Sound.{IsSound};

use crate::memory::Memory;
use page_views::{Here, Target, here_by_side};
use phys_pages::Seat;
use sv32_space::{Entry, Walked, entry_at, root_of, walk};
use xk_base::limits::PAGE_SIZE;
use xk_base::{Access, Frame, Pid, Place, Right, window_of};
use xk_ports::SwapStore;

impl<W: SwapStore> Memory<W> {
    // Whether it is one of the processes that the memory was made for.
    fn has_process(&self, pid: Pid) -> bool
        requires sound { IsSound W.slot_count self.now }
        ensures { result ≡ is_pid (processes self.now) pid.0 }
    {
        2 <= pid.0 && (pid.0 as u32) < self.procs + 2
    }

    // Whether a page may stand there: in a window of a process.
    pub(crate) fn has_place(&self, at: Place) -> bool
        requires sound { IsSound W.slot_count self.now }
        ensures { result ≡ is_user_place (processes self.now) at }
    {
        self.has_process(at.pid) && window_of(at.vpn).is_some()
    }

    // What the entry of a place says.
    pub(crate) fn entry(&self, at: Place) -> Entry
        requires sound { IsSound W.slot_count self.now }
        requires place { is_user_place (processes self.now) at ≡ true }
        ensures { entries (processes self.now) (ram_of self.now) at ≡ Some result }
    {
        match entry_at(&self.ram, at) {
            Some(entry) => entry,
            None => unreachable!(),
        }
    }

    // The frame of a near place.
    pub(crate) fn frame(&self, at: Place) -> Frame
        requires sound { IsSound W.slot_count self.now }
        requires near { is_near self.now at ≡ true }
        ensures named { result.0 ≡ frame_named (entries (processes self.now) (ram_of self.now) at) }
        ensures inside { result.0 < (area (ram_of self.now)).frames }
    {
        match self.entry(at) {
            Entry::At { side: _, seat } => match seat {
                Seat::Frame(f) => f,
                Seat::Slot(_) => unreachable!(),
            },
            Entry::Free => unreachable!(),
            Entry::OnConsole { w: _ } => unreachable!(),
        }
    }

    // Where an access at a virtual address leads, by the walk of Sv32 in the process's page tables.
    pub(crate) fn find(&self, pid: Pid, va: u32, access: Access) -> Target
        requires sound { IsSound W.slot_count self.now }
        ensures { result ≡ entry_target (entries (processes self.now) (ram_of self.now) (page_of pid va)) access }
    {
        if !self.has_process(pid) {
            return Target::Nothing;
        }
        match walk(&self.ram, root_of(pid), va, access) {
            Walked::PageFault => Target::Nothing,
            Walked::Reaches(pa) => match self.ram.frame_of((pa / PAGE_SIZE as u64) as u32) {
                Some(f) => Target::Page(f),
                None => Target::Console,
            },
        }
    }

    /// What the ledger has at a place. It takes any place; `Nothing` comes exactly where it is no
    /// home, holder place or orphan's place.
    pub fn at(&self, place: Place) -> Here
        requires sound { IsSound W.slot_count self.now }
        ensures { result ≡ here_at (processes self.now) (ledger W.held self.now) place }
    {
        if !self.has_place(place) {
            return Here::Nothing;
        }
        match self.entry(place) {
            Entry::Free => Here::Nothing,
            Entry::At { side, seat } => here_by_side(side, self.owners.info(seat)),
            Entry::OnConsole { w } => Here::Own {
                right: Right { w, x: false },
                console: true,
                loan: None,
            },
        }
    }
}
