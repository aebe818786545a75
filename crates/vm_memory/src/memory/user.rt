//! The memory of one process, as its instructions see it.

ghost use Rattle.std.specs.Prelude.{◌≡◌, ◌+◌, ◌%◌, ◌<◌, ◌≤◌, ℕ, true, length, slice_index, None, Some, IfOk, OnOk, OnErr};
ghost use Rattle.sv32_space.specs.SpelledEntries.{entries};
ghost use Rattle.sv32_space.specs.EntryReach.{entry_may};
ghost use Rattle.page_views.specs.EntryAccess.{entry_target, is_given_target};
ghost use Rattle.xk_base.specs.Numbers.Windows.{page_of};
ghost use Rattle.vm_memory.specs.Bytes.{is_out};
ghost use Rattle.vm_memory.specs.Memory.{IsUsable, has_failed, processes, ram_of, store_of};
ghost use Rattle.vm_memory.specs.Pages.Exchanging.{BringsIn};
ghost use Rattle.vm_memory.specs.Sound.{IsSound};
ghost use Rattle.vm_memory.specs.Using.UserStores.{DoesStore, UserStore};
ghost use Rattle.xk_base.specs.Outside.{Rose};
ghost use Rattle.xk_base.specs.UserMemory.{KeepsContent, low_bytes, LoadsNumber, StoresAsTold, number_at, size_of};
ghost use Rattle.vm_memory.specs.Using.UserView.{KeepsRest, user_content, user_seen, user_view};
ghost use Rattle.xk_base.specs.declared.pages.Access.TheVariants.{Store};

use crate::memory::Memory;
use page_views::{Target, read_number, write_number};
use xk_base::limits::PAGE_SIZE;
use xk_base::{Access, Failed, Pid, Place, Stored, UserMemory, Vpn, Width};
use xk_ports::SwapStore;

/// A process's memory by virtual addresses. It is fit for use exactly where the memory hasn't
/// answered `Failed`. A process that the memory wasn't made for reaches nothing.
pub struct User<'a, W: SwapStore> {
    pub mem: &'a mut Memory<W>,
    pub pid: Pid,
}

impl<W: SwapStore> Memory<W> {
    // The number of that width where an access to an address leads; 0 in the console's page.
    pub(super) fn read_at(
        &self,
        target: Target,
        pid: Pid,
        va: u32,
        width: Width,
        access: Access,
    ) -> Option<u32>
        requires sound { IsSound W.slot_count self.now }
        requires aligned { va % size_of width ≡ 0 }
        requires target { target ≡ entry_target (entries (processes self.now) (ram_of self.now) (page_of pid va)) access }
        requires given { is_given_target target ≡ entry_may (entries (processes self.now) (ram_of self.now) (page_of pid va)) access }
        ensures { LoadsNumber ((user_view W.held self.now pid).may access va) None
            (Some ((user_view W.held self.now pid).byte)) va width result }
    {
        match target {
            Target::Page(f) => Some(read_number(self.ram.page(f), va % PAGE_SIZE, width)),
            Target::Console => Some(0),
            Target::Nothing => None,
        }
    }

    // The number of that width at an address, where the process has the access; 0 in the console's
    // page.
    fn load_number(
        &mut self,
        pid: Pid,
        va: u32,
        width: Width,
        access: Access,
    ) -> Result<Option<u32>, Failed>
        requires sound { IsSound W.slot_count self.old }
        requires usable { IsUsable self.old }
        requires aligned { va % size_of width ≡ 0 }
        ensures gives { IfOk result (λ number. LoadsNumber ((user_view W.held self.old pid).may access va) None
            (user_content W.SwapStore self.old pid) va width number) }
        ensures brings { BringsIn W.SwapStore self.old self.new }
        ensures usable { OnOk result (IsUsable self.new) }
        ensures failed { OnErr result (has_failed self.new ≡ true) }
        ensures out { OnErr result (is_out self.old (page_of pid va) ≡ true) }
        ensures cause { OnErr result (Rose (W.faults (store_of self.old)) (W.faults (store_of self.new))) }
    {
        let target = self.find_near(pid, va, access)?;
        Ok(self.read_at(target, pid, va, width, access))
    }

    // Stores the low bytes of a value where an access to store leads, if it is a page.
    pub(super) fn store_at(
        &mut self,
        target: Target,
        pid: Pid,
        va: u32,
        width: Width,
        value: u32,
    ) -> Stored
        requires sound { IsSound W.slot_count self.old }
        requires aligned { va % size_of width ≡ 0 }
        requires target { target ≡ entry_target (entries (processes self.old) (ram_of self.old) (page_of pid va)) Store }
        ensures { let store : UserStore = record { pid = pid; address = va; width = width; value = value } in
            DoesStore store self.old self.new result }
    {
        match target {
            Target::Page(f) => {
                write_number(self.ram.page_mut(f), va % PAGE_SIZE, width, value);
                Stored::Done
            }
            Target::Console => Stored::Device(va % PAGE_SIZE),
            Target::Nothing => Stored::Fault,
        }
    }

    // Stores the low bytes of a value at an address, where the process may store there and it isn't
    // the console's page.
    fn store_number(
        &mut self,
        pid: Pid,
        va: u32,
        width: Width,
        value: u32,
    ) -> Result<Stored, Failed>
        requires sound { IsSound W.slot_count self.old }
        requires usable { IsUsable self.old }
        requires aligned { va % size_of width ≡ 0 }
        ensures stores { IfOk result
            (λ stored. StoresAsTold ((user_view W.held self.old pid).may Store va) ((user_view W.held self.old pid).console va)
            (user_seen W.SwapStore self.old pid) (user_seen W.SwapStore self.new pid) va width value stored) }
        ensures kept { OnErr result (KeepsContent (user_content W.SwapStore self.old pid) (user_content W.SwapStore self.new pid)) }
        ensures may { (user_view W.held self.new pid).may ≡ (user_view W.held self.old pid).may }
        ensures console { (user_view W.held self.new pid).console ≡ (user_view W.held self.old pid).console }
        ensures rest { KeepsRest W.SwapStore pid self.old self.new }
        ensures usable { OnOk result (IsUsable self.new) }
        ensures failed { OnErr result (has_failed self.new ≡ true) }
        ensures out { OnErr result (is_out self.old (page_of pid va) ≡ true) }
        ensures cause { OnErr result (Rose (W.faults (store_of self.old)) (W.faults (store_of self.new))) }
    {
        let target = self.find_near(pid, va, Access::Store)?;
        Ok(self.store_at(target, pid, va, width, value))
    }

    // Whether the process may store at an address.
    pub(super) fn may_store(&self, pid: Pid, va: u32) -> bool
        requires sound { IsSound W.slot_count self.now }
        ensures { result ≡ (user_view W.held self.now pid).may Store va }
    {
        let at = Place {
            pid,
            vpn: Vpn(va / PAGE_SIZE),
        };
        self.gives(at, Access::Store)
    }
}

impl<W: SwapStore> UserMemory for User<'_, W> {
    ghost use Rattle.std.specs.Prelude.{◌≡◌, None};
    ghost use Rattle.vm_memory.specs.Sound.{IsSound};
    ghost use Rattle.vm_memory.specs.Bytes.{is_out};
    ghost use Rattle.vm_memory.specs.Using.UserView.{user_content, user_view, KeepsRest};
    ghost use Rattle.xk_base.specs.Numbers.Windows.{page_of};
    ghost use Rattle.std.proofs.Common.{◌∙◌};
    ghost use Rattle.vm_memory.specs.Using.UserRest.{pid_rest_over};

    ghost may = { λ u. (user_view W.held u.mem.now u.pid).may };

    ghost console = { λ u. (user_view W.held u.mem.now u.pid).console };

    ghost content = { λ u. user_content W.SwapStore u.mem.now u.pid };

    ghost out = { λ u va. is_out u.mem.now (page_of u.pid va) };

    ghost timer = { λ u. None };

    ghost fit = { λ u. IsSound W.slot_count u.mem.now × IsUsable u.mem.now };

    ghost faults = { λ u. W.faults u.mem.now.store };

    ghost same_rest = { λ a b. (b.mem.ghost_name ≡ a.mem.ghost_name) × (b.pid ≡ a.pid) × KeepsRest W.SwapStore a.pid a.mem.now b.mem.now };

    ghost bounded = { λ u. W.bounded u.mem.now.store };

    ghost rest_over = { λ a b c x y. (
      y.0 ∙ x.0,
      y.1 ∙ x.1,
      pid_rest_over W.SwapStore.own x.1 x.2 y.2,
    ) };

    fn fetch(&mut self, va: u32) -> Result<Option<u32>, Failed> {
        self.mem
            .load_number(self.pid, va, Width::Word, Access::Fetch)
    }

    fn load(&mut self, va: u32, width: Width) -> Result<Option<u32>, Failed> {
        self.mem.load_number(self.pid, va, width, Access::Load)
    }

    fn store(&mut self, va: u32, width: Width, value: u32) -> Result<Stored, Failed> {
        self.mem.store_number(self.pid, va, width, value)
    }

    fn can_store(&self, va: u32, _width: Width) -> bool {
        self.mem.may_store(self.pid, va)
    }
}
