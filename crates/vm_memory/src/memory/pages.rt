//! Pages that a process reaches, lent out.

ghost use Rattle.std.specs.Borrow.{sem};
ghost use Rattle.std.specs.Prelude.{◌≡◌, ◌≤◌, ℕ, Some, List, length, true, false, IsTrue, IfOk, OnOk, OnErr};
ghost use Rattle.ledger_model.specs.Ledger.{Bytes};
ghost use Rattle.ledger_model.specs.Loans.{bare};
ghost use Rattle.ledger_model.specs.Reach.{reach};
ghost use Rattle.vm_memory.specs.Using.Access.{contents_reached, reaches_bytes, write_page};
ghost use Rattle.vm_memory.specs.Bytes.{MeansBytes, is_near, is_out, none_out, pages_out};
ghost use Rattle.xk_ports.specs.Keeping.{KeepsStore};
ghost use Rattle.vm_memory.specs.Loaning.Lending.{LendsBytes, with_bytes_at};
ghost use Rattle.vm_memory.specs.Memory.{IsUsable, has_failed, ledger, processes, size, store_of};
ghost use Rattle.vm_memory.specs.Sound.{IsSound};
ghost use Rattle.vm_memory.specs.Tie.{IsTied};
ghost use Rattle.xk_base.specs.Outside.{Rose};
ghost use Rattle.xk_base.specs.declared.pages.Access.TheVariants.{Load, Store};

use crate::memory::Memory;
use xk_base::limits::PAGE_SIZE;
use xk_base::{Access, Failed, Place};
use xk_ports::SwapStore;

impl<W: SwapStore> Memory<W> {
    /// Whether the process of the place has the access there and the page isn't the console. If so
    /// the place is near from then on: a page that is out comes in, and another goes out in its place.
    /// `Failed`, of the store, comes only where that page is out; all pages are there as before.
    pub fn reach(&mut self, at: Place, access: Access) -> Result<bool, Failed>
        requires sound { IsSound W.slot_count self.old }
        requires usable { IsUsable self.old }
        ensures sound { IsSound W.slot_count self.new }
        ensures answer { IfOk result (λ yes. yes ≡ reaches_bytes (processes self.old) (ledger W.held self.old) at access) }
        ensures near { IfOk result (λ yes. yes ≡ true → is_near self.new at ≡ true) }
        ensures usable { OnOk result (IsUsable self.new) }
        ensures failed { OnErr result (has_failed self.new ≡ true) }
        ensures cause { OnErr result (Rose (W.faults (store_of self.old)) (W.faults (store_of self.new))) }
        ensures out { OnErr result (is_out self.old at ≡ true) }
        ensures rights { bare (ledger W.held self.new) ≡ bare (ledger W.held self.old) }
        ensures whole { MeansBytes W.SwapStore self.old → ledger W.held self.new ≡ ledger W.held self.old }
        ensures means { MeansBytes W.SwapStore self.old → MeansBytes W.SwapStore self.new }
        // A page goes out only in place of one that was out.
        ensures none { none_out self.old ≡ true → self.new ≡ self.old }
        ensures no_more { pages_out self.new ≤ pages_out self.old }
        ensures tie { IsTied W.held self.new }
        ensures size { size self.new ≡ size self.old }
        ensures store { KeepsStore W.SwapStore (store_of self.old) (store_of self.new) }
    {
        if !self.has_place(at) {
            return Ok(false);
        }
        let target = self.find_near(at.pid, at.vpn.0 * PAGE_SIZE, access)?;
        Ok(target.is_page())
    }

    /// The 4096 bytes of a page.
    pub fn bytes(&self, at: Place) -> &[u8]
        requires sound { IsSound W.slot_count self.now }
        requires usable { IsUsable self.now }
        requires near { is_near self.now at ≡ true }
        requires may { IsTrue (reaches_bytes (processes self.now) (ledger W.held self.now) at Load) }
        ensures value { contents_reached (processes self.now) (ledger W.held self.now) at Load ≡ Some (Bytes result.now) }
        ensures len { length result.now ≡ 4096 }
    {
        self.ram.page(self.frame(at))
    }

    /// The 4096 bytes of a page, to be written: what is written is what the page then holds, and all
    /// else stays.
    pub fn bytes_mut(&mut self, at: Place) -> &mut [u8]
        requires sound { IsSound W.slot_count self.old }
        requires usable { IsUsable self.old }
        requires near { is_near self.old at ≡ true }
        requires may { IsTrue (reaches_bytes (processes self.old) (ledger W.held self.old) at Store) }
        ensures* lends { sem 𝓛 (LendsBytes W.row self.entry at result) }
        ensures value { contents_reached (processes self.old) (ledger W.held self.old) at Store ≡ Some (Bytes result.now) }
        ensures len { length result.now ≡ 4096 }
        ensures writes { (bytes : List ℕ) → length bytes ≡ 4096
            → ledger W.held (with_bytes_at self.old at bytes)
            ≡ write_page (reach (processes self.old) (ledger W.held self.old) at Store) bytes (ledger W.held self.old) }
        ensures sound { (bytes : List ℕ) → length bytes ≡ 4096 → IsSound W.slot_count (with_bytes_at self.old at bytes) }
        ensures tie { (bytes : List ℕ) → length bytes ≡ 4096 → IsTied W.held (with_bytes_at self.old at bytes) }
        ensures size { (bytes : List ℕ) → size (with_bytes_at self.old at bytes) ≡ size self.old }
        ensures store { (bytes : List ℕ) → store_of (with_bytes_at self.old at bytes) ≡ store_of self.old }
        ensures usable { (bytes : List ℕ) → IsUsable (with_bytes_at self.old at bytes) }
        ensures none { (bytes : List ℕ) → none_out (with_bytes_at self.old at bytes) ≡ none_out self.old }
        ensures no_more { (bytes : List ℕ) → pages_out (with_bytes_at self.old at bytes) ≡ pages_out self.old }
        ensures means { (bytes : List ℕ) → MeansBytes W.SwapStore self.old → MeansBytes W.SwapStore (with_bytes_at self.old at bytes) }
    {
        let f = self.frame(at);
        self.ram.page_mut(f)
    }
}
