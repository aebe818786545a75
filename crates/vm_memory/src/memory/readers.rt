//! What a memory tells without a change.

ghost use Rattle.std.specs.Prelude.{◌≡◌, ℕ};
ghost use Rattle.ledger_model.specs.Ledger.{pages};
ghost use Rattle.ledger_model.specs.Loans.{IsFresh, loans};
ghost use Rattle.page_views.specs.Here.{here_at};
ghost use Rattle.ledger_model.specs.WholePages.{HasWholePages};
ghost use Rattle.vm_memory.specs.Memory.{capacity_of, frames_for_pages, ledger, processes, ram_of, store_of};
ghost use Rattle.vm_memory.specs.Sound.{IsSound};
ghost use Rattle.vm_memory.specs.Tie.{IsTied};
ghost use Rattle.xk_base.specs.declared.ids.Number.{Number};

use crate::memory::Memory;
use phys_pages::Ram;
use xk_base::limits::TABLE_FRAMES;
use xk_ports::SwapStore;

impl<W: SwapStore> Memory<W> {
    /// The RAM. Its bytes, with what the store's slots hold, stand for the ledger.
    pub fn ram(&self) -> &Ram
        requires sound { IsSound W.slot_count self.now }
        ensures bytes { result.now ≡ ram_of self.now }
        ensures tie { IsTied W.held self.now }
    {
        &self.ram
    }

    /// Law: each page and each orphan has 4096 bytes, whatever the store tells.
    pub fn pages_are_whole(&self)
        requires sound { IsSound W.slot_count self.now }
        ensures { HasWholePages (ledger W.held self.now) }
    {
        self.ram.pages_are_bytes();
    }

    /// How many pages and orphans there are, the console not counted.
    pub fn pages(&self) -> u32
        requires sound { IsSound W.slot_count self.now }
        ensures { result ≡ pages (processes self.now) (ledger W.held self.now) }
    {
        self.pages
    }

    // How many pages stand in frames at most: a frame outside the page tables is always free.
    pub(crate) fn page_frames(&self) -> u32
        requires sound { IsSound W.slot_count self.now }
        ensures { result ≡ frames_for_pages self.now }
    {
        self.ram.frames() - TABLE_FRAMES * self.procs - 1
    }

    /// How many pages there may be: one for each frame outside the page tables but the one that is
    /// always free, and one for each slot.
    pub fn cap(&self) -> u32
        requires sound { IsSound W.slot_count self.now }
        ensures { result ≡ capacity_of self.now }
    {
        self.page_frames() + self.slots
    }

    /// Hands the store back. No loan may stand.
    pub fn close(self) -> W
        requires sound { IsSound W.slot_count self }
        requires no_loan { (number : Number) → IsFresh (loans (ledger W.held self)) number }
        ensures { result ≡ store_of self }
    {
        let Memory {
            ram: _,
            owners: _,
            store,
            failed: _,
            procs: _,
            slots: _,
            pages: _,
            hand: _,
        } = self;
        store
    }
}
