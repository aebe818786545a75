//! The memory of one process, as its instructions see it, with the frames of the pages that it reached last.

ghost use Rattle.std.specs.Prelude.{◌≡◌, ◌%◌, true, None, IfOk, OnOk, OnErr};
ghost use Rattle.sv32_space.specs.EntryReach.{entry_may};
ghost use Rattle.sv32_space.specs.SpelledEntries.{entries};
ghost use Rattle.vm_memory.specs.Bytes.{is_out};
ghost use Rattle.vm_memory.specs.Memory.{IsUsable, has_failed, processes, ram_of, store_of};
ghost use Rattle.vm_memory.specs.Pages.Exchanging.{BringsIn};
ghost use Rattle.vm_memory.specs.Sound.{IsSound};
ghost use Rattle.page_views.specs.EntryAccess.{entry_target, is_given_target};
ghost use Rattle.vm_memory.specs.Using.Known.{Remembers};
ghost use Rattle.vm_memory.specs.Using.UserView.{KeepsRest, user_content, user_seen, user_view};
ghost use Rattle.xk_base.specs.Numbers.Windows.{page_of};
ghost use Rattle.xk_base.specs.Outside.{Rose};
ghost use Rattle.xk_base.specs.UserMemory.{KeepsContent, LoadsNumber, StoresAsTold, size_of};
ghost use Rattle.xk_base.specs.declared.pages.Access.TheVariants.{Store};

use crate::memory::Memory;
use page_views::{KnownPage, KnownPages, Target};
use xk_base::limits::PAGE_SIZE;
use xk_base::{Access, Failed, Pid, Stored, UserMemory, Vpn, Width};
use xk_ports::SwapStore;

/// A process's memory by virtual addresses, as `User` is one. The walk to a page that is known isn't made
/// again; where a page may move, none is known any more.
pub struct KnownUser<'a, W: SwapStore> {
    pub mem: &'a mut Memory<W>,
    pub pid: Pid,
    pub known: KnownPages,
}

impl<W: SwapStore> Memory<W> {
    // Where an access leads, as `find_near` has it.
    fn find_known(
        &mut self,
        known: &mut KnownPages,
        pid: Pid,
        va: u32,
        access: Access,
    ) -> Result<Target, Failed>
        requires sound { IsSound W.slot_count self.old }
        requires usable { IsUsable self.old }
        requires known { Remembers self.old pid known.old }
        ensures known { Remembers self.new pid known.new }
        ensures brings { BringsIn W.SwapStore self.old self.new }
        ensures target { IfOk result
            (λ target. target ≡ entry_target (entries (processes self.new) (ram_of self.new) (page_of pid va)) access) }
        ensures given { IfOk result
            (λ target. is_given_target target ≡ entry_may (entries (processes self.new) (ram_of self.new) (page_of pid va)) access) }
        ensures usable { OnOk result (IsUsable self.new) }
        ensures failed { OnErr result (has_failed self.new ≡ true) }
        ensures out { OnErr result (is_out self.old (page_of pid va) ≡ true) }
        ensures cause { OnErr result (Rose (W.faults (store_of self.old)) (W.faults (store_of self.new))) }
    {
        let vpn = Vpn(va / PAGE_SIZE);
        if let Some(frame) = known.frame(vpn, access) {
            return Ok(Target::Page(frame));
        }
        let found = self.find(pid, va, access);
        match found {
            Target::Page(frame) => {
                known.remember(access, KnownPage { vpn, frame });
                Ok(found)
            }
            Target::Console => Ok(found),
            Target::Nothing => {
                *known = KnownPages::new();
                self.find_near(pid, va, access)
            }
        }
    }

    // The number of that width at an address, as `load_number` has it.
    fn load_known(
        &mut self,
        known: &mut KnownPages,
        pid: Pid,
        va: u32,
        width: Width,
        access: Access,
    ) -> Result<Option<u32>, Failed>
        requires sound { IsSound W.slot_count self.old }
        requires usable { IsUsable self.old }
        requires known { Remembers self.old pid known.old }
        requires aligned { va % size_of width ≡ 0 }
        ensures known { Remembers self.new pid known.new }
        ensures gives { IfOk result (λ number. LoadsNumber ((user_view W.held self.old pid).may access va) None
            (user_content W.SwapStore self.old pid) va width number) }
        ensures brings { BringsIn W.SwapStore self.old self.new }
        ensures usable { OnOk result (IsUsable self.new) }
        ensures failed { OnErr result (has_failed self.new ≡ true) }
        ensures out { OnErr result (is_out self.old (page_of pid va) ≡ true) }
        ensures cause { OnErr result (Rose (W.faults (store_of self.old)) (W.faults (store_of self.new))) }
    {
        let target = self.find_known(known, pid, va, access)?;
        Ok(self.read_at(target, pid, va, width, access))
    }

    // Stores the low bytes of a value at an address, as `store_number` has it.
    fn store_known(
        &mut self,
        known: &mut KnownPages,
        pid: Pid,
        va: u32,
        width: Width,
        value: u32,
    ) -> Result<Stored, Failed>
        requires sound { IsSound W.slot_count self.old }
        requires usable { IsUsable self.old }
        requires known { Remembers self.old pid known.old }
        requires aligned { va % size_of width ≡ 0 }
        ensures known { Remembers self.new pid known.new }
        ensures stores { IfOk result
            (λ stored. StoresAsTold ((user_view W.held self.old pid).may Store va) ((user_view W.held self.old pid).console va)
            (user_seen W.SwapStore self.old pid) (user_seen W.SwapStore self.new pid) va width value stored) }
        ensures kept { OnErr result (KeepsContent (user_content W.SwapStore self.old pid) (user_content W.SwapStore self.new pid)) }
        ensures may { (user_view W.held self.new pid).may ≡ (user_view W.held self.old pid).may }
        ensures console { (user_view W.held self.new pid).console ≡ (user_view W.held self.old pid).console }
        ensures rest { KeepsRest W.SwapStore pid self.old self.new }
        ensures usable { OnOk result (IsUsable self.new) }
        ensures failed { OnErr result (has_failed self.new ≡ true) }
        ensures out { OnErr result (is_out self.old (page_of pid va) ≡ true) }
        ensures cause { OnErr result (Rose (W.faults (store_of self.old)) (W.faults (store_of self.new))) }
    {
        let target = self.find_known(known, pid, va, Access::Store)?;
        Ok(self.store_at(target, pid, va, width, value))
    }
}

impl<W: SwapStore> UserMemory for KnownUser<'_, W> {
    ghost use Rattle.std.specs.Prelude.{◌≡◌, None};
    ghost use Rattle.vm_memory.specs.Sound.{IsSound};
    ghost use Rattle.vm_memory.specs.Bytes.{is_out};
    ghost use Rattle.vm_memory.specs.Using.Known.{Remembers};
    ghost use Rattle.vm_memory.specs.Using.UserView.{user_content, user_view, KeepsRest};
    ghost use Rattle.xk_base.specs.Numbers.Windows.{page_of};
    ghost use Rattle.std.proofs.Common.{◌∙◌};
    ghost use Rattle.vm_memory.specs.Using.UserRest.{pid_rest_over};

    ghost may = { λ u. (user_view W.held u.mem.now u.pid).may };

    ghost console = { λ u. (user_view W.held u.mem.now u.pid).console };

    ghost content = { λ u. user_content W.SwapStore u.mem.now u.pid };

    ghost out = { λ u va. is_out u.mem.now (page_of u.pid va) };

    ghost timer = { λ u. None };

    ghost fit = { λ u. IsSound W.slot_count u.mem.now × IsUsable u.mem.now × Remembers u.mem.now u.pid u.known };

    ghost faults = { λ u. W.faults u.mem.now.store };

    // What is known stays what the walk gives.
    ghost same_rest = { λ a b. (b.mem.ghost_name ≡ a.mem.ghost_name) × (b.pid ≡ a.pid)
        × KeepsRest W.SwapStore a.pid a.mem.now b.mem.now
        × (Remembers a.mem.now a.pid a.known → Remembers b.mem.now b.pid b.known) };

    ghost bounded = { λ u. W.bounded u.mem.now.store };

    ghost rest_over = { λ a b c x y. (
      y.0 ∙ x.0,
      y.1 ∙ x.1,
      pid_rest_over W.SwapStore.own x.1 x.2 y.2,
      λ known. y.3 (x.3 known),
    ) };

    fn fetch(&mut self, va: u32) -> Result<Option<u32>, Failed> {
        self.mem
            .load_known(&mut self.known, self.pid, va, Width::Word, Access::Fetch)
    }

    fn load(&mut self, va: u32, width: Width) -> Result<Option<u32>, Failed> {
        self.mem
            .load_known(&mut self.known, self.pid, va, width, Access::Load)
    }

    fn store(&mut self, va: u32, width: Width, value: u32) -> Result<Stored, Failed> {
        self.mem
            .store_known(&mut self.known, self.pid, va, width, value)
    }

    fn can_store(&self, va: u32, _width: Width) -> bool {
        self.mem.may_store(self.pid, va)
    }
}
