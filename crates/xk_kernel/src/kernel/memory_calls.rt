//! The five calls on memory. The caller is the thread whose turn it is.

ghost use Rattle.std.specs.Prelude.{◌≡◌, ◌==◌, ◌/◌, true, false, if◌then◌else◌, None, Some, IfOk};
ghost use Rattle.machine_model.specs.State.Changes.{Served, unless_refused};
ghost use Rattle.machine_model.specs.Runs.Matched.{AreHeapsMatched};
ghost use Rattle.machine_model.specs.Calling.MemoryCalls.{are_bad_flags, is_bad_range, decrease_refusals, decrease_served};
ghost use Rattle.machine_model.specs.Calling.MemoryCalls.{increase_refusals, increase_served, map_refusals, map_served, unmap_refusals};
ghost use Rattle.machine_model.specs.Calling.MemoryCalls.{unmap_served, update_refusals, update_served};
ghost use Rattle.xk_base.specs.Numbers.Windows.{page_of};
ghost use Rattle.syscall_codec.specs.Flags.{right_of};
ghost use Rattle.xk_kernel.specs.Calling.{CrowdsBy, IfUndone, ServesAs, outcome_of};
ghost use Rattle.xk_kernel.specs.Knowing.{KnowsBytes};
ghost use Rattle.xk_kernel.specs.Sound.{IsUsable, IsWhole};
ghost use Rattle.xk_kernel.specs.State.{machine_of};
ghost use Rattle.xk_kernel.specs.Telling.{Leaves, StaysUsable};

use crate::kernel::calls::CallerFate;
use crate::kernel::{Kernel, SwapFault};
use syscall_codec::{MapFlags, Reply};
use xk_base::limits::{CONSOLE_ADDRESS, PAGE_SIZE};
use xk_base::{Failed, Place, Right, Vpn, Window, XousError};
use xk_ports::SwapStore;

/// The first address of the Heap window.
const HEAP_START: u32 = 0x2000_0000;

/// How long a heap may be, in bytes: the whole window.
const HEAP_LIMIT: u32 = 0x0100_0000;

/// The right to a page of a heap.
const HEAP_RIGHT: Right = Right { w: true, x: false };

// Whether these are not the address and the size of a run of pages.
fn is_bad_range(address: u32, size: u32) -> bool
    ensures { result ≡ is_bad_range address size }
{
    size == 0 || size % PAGE_SIZE != 0 || address % PAGE_SIZE != 0
}

// The right that flags ask for; none where a bit is unknown or R isn't set.
fn right_asked(flags: u32) -> Option<Right>
    ensures { result ≡ (if are_bad_flags flags then None else Some (right_of flags)) }
{
    let flags = MapFlags::from_bits(flags)?;
    if !flags.reads() {
        return None;
    }
    Some(flags.right())
}

// The page that MapMemory asks for; none where it leaves the choice.
fn page_asked(virt: u32) -> Option<Vpn>
    ensures { result ≡ (if virt == 0 then None else Some (record { 0 = virt / PAGE_SIZE })) }
{
    if virt == 0 {
        return None;
    }
    Some(Vpn(virt / PAGE_SIZE))
}

impl<W: SwapStore> Kernel<W> {
    // The place of an address in the caller's process.
    fn caller_place(&self, address: u32) -> Place
        ensures { result ≡ page_of self.now.cursor.pid address }
    {
        Place {
            pid: self.cursor.pid,
            vpn: Vpn(address / PAGE_SIZE),
        }
    }

    // MapMemory: new pages of zeros, or the console.
    #[tactic(auto, using(crate::proofs::Memory::MadeLemmas::serves_by))]
    pub(super) fn map_memory(
        &mut self,
        phys: u32,
        virt: u32,
        size: u32,
        flags: u32,
    ) -> Result<Result<CallerFate, XousError>, SwapFault>
        requires whole { IsWhole W.SwapStore self.old }
        requires usable { IsUsable self.old }
        ensures outcome { let m = machine_of W.held self.old in
            let outcome = unless_refused (map_refusals m phys virt size flags) (Served (map_served m phys virt size flags)) in
            let new = machine_of W.held self.new in
            IfOk result (ServesAs (KnowsBytes W.SwapStore self.old self.new) self.old.cursor new outcome) }
        ensures leaves { let m = machine_of W.held self.old in
            let outcome = unless_refused (map_refusals m phys virt size flags) (Served (map_served m phys virt size flags)) in
            Leaves W.SwapStore self.old self.new (CrowdsBy W.held self.old outcome) result }
        ensures undone { IfOk result (λ served. IfUndone served (self.new ≡ self.old)) }
        ensures log { self.new.log ≡ self.old.log }
    {
        if is_bad_range(virt, size) {
            return Ok(Err(XousError::BadAlignment));
        }
        let Some(right) = right_asked(flags) else {
            return Ok(Err(XousError::InvalidSyscall));
        };
        let at = page_asked(virt);
        if phys == CONSOLE_ADDRESS {
            if size != PAGE_SIZE || right.x {
                return Ok(Err(XousError::BadAddress));
            }
            return match self.mem.make_console(self.cursor.pid, at, right.w) {
                Ok(first) => Ok(Ok(CallerFate::Answered(Reply::Range(PAGE_SIZE * first.0, size)))),
                Err(error) => Ok(Err(error)),
            };
        }
        if phys != 0 {
            return Ok(Err(XousError::BadAddress));
        }
        match self
            .mem
            .make(self.cursor.pid, Window::Map, at, size / PAGE_SIZE, right)
        {
            Ok(Ok(first)) => Ok(Ok(CallerFate::Answered(Reply::Range(PAGE_SIZE * first.0, size)))),
            Ok(Err(error)) => Ok(Err(error)),
            Err(Failed) => Err(SwapFault),
        }
    }

    // UnmapMemory: the pages go, the console too.
    pub(super) fn unmap_memory(&mut self, address: u32, size: u32) -> Result<CallerFate, XousError>
        requires whole { IsWhole W.SwapStore self.old }
        requires usable { IsUsable self.old }
        ensures outcome { outcome_of self.old.cursor (machine_of W.held self.new) result
            ≡ unless_refused (unmap_refusals (machine_of W.held self.old) address size)
            (Served (unmap_served (machine_of W.held self.old) address size)) }
        ensures undone { IfUndone result (self.new ≡ self.old) }
        ensures log { self.new.log ≡ self.old.log }
        ensures stays { StaysUsable W.SwapStore self.old self.new }
    {
        if is_bad_range(address, size) {
            return Err(XousError::BadAlignment);
        }
        let first = self.caller_place(address);
        match self.mem.remove_run(first, size / PAGE_SIZE) {
            Ok(()) => Ok(CallerFate::Answered(Reply::Plain)),
            Err(error) => Err(error),
        }
    }

    // UpdateMemoryFlags: the right of the pages becomes the one that is asked.
    pub(super) fn update_memory_flags(
        &mut self,
        address: u32,
        size: u32,
        flags: u32,
    ) -> Result<CallerFate, XousError>
        requires whole { IsWhole W.SwapStore self.old }
        requires usable { IsUsable self.old }
        ensures outcome { outcome_of self.old.cursor (machine_of W.held self.new) result
            ≡ unless_refused (update_refusals (machine_of W.held self.old) address size flags)
            (Served (update_served (machine_of W.held self.old) address size flags)) }
        ensures undone { IfUndone result (self.new ≡ self.old) }
        ensures log { self.new.log ≡ self.old.log }
        ensures stays { StaysUsable W.SwapStore self.old self.new }
    {
        if is_bad_range(address, size) {
            return Err(XousError::BadAlignment);
        }
        let Some(right) = right_asked(flags) else {
            return Err(XousError::InvalidSyscall);
        };
        let first = self.caller_place(address);
        match self.mem.reduce_run(first, size / PAGE_SIZE, right) {
            Ok(()) => Ok(CallerFate::Answered(Reply::Plain)),
            Err(error) => Err(error),
        }
    }

    // IncreaseHeap: pages with R and W stand above the heap.
    #[tactic(auto, using(crate::proofs::Memory::MadeLemmas::serves_by))]
    pub(super) fn increase_heap(
        &mut self,
        bytes: u32,
    ) -> Result<Result<CallerFate, XousError>, SwapFault>
        requires whole { IsWhole W.SwapStore self.old }
        requires usable { IsUsable self.old }
        requires matched { AreHeapsMatched (machine_of W.held self.old).process (machine_of W.held self.old).ledger }
        ensures outcome { let m = machine_of W.held self.old in
            let outcome = unless_refused (increase_refusals m bytes) (Served (increase_served m bytes)) in
            let new = machine_of W.held self.new in
            IfOk result (ServesAs (KnowsBytes W.SwapStore self.old self.new) self.old.cursor new outcome) }
        ensures leaves { let m = machine_of W.held self.old in
            let outcome = unless_refused (increase_refusals m bytes) (Served (increase_served m bytes)) in
            Leaves W.SwapStore self.old self.new (CrowdsBy W.held self.old outcome) result }
        ensures undone { IfOk result (λ served. IfUndone served (self.new ≡ self.old)) }
        ensures log { self.new.log ≡ self.old.log }
    {
        if bytes % PAGE_SIZE != 0 {
            return Ok(Err(XousError::BadAlignment));
        }
        let pid = self.cursor.pid;
        let heap = self.procs.heap(pid);
        if bytes > HEAP_LIMIT - heap {
            return Ok(Err(XousError::InvalidLimit));
        }
        let address = HEAP_START + heap;
        if bytes == 0 {
            return Ok(Ok(CallerFate::Answered(Reply::Range(address, bytes))));
        }
        let first = Vpn(address / PAGE_SIZE);
        let n = bytes / PAGE_SIZE;
        match self.mem.make(pid, Window::Heap, Some(first), n, HEAP_RIGHT) {
            Ok(Ok(_)) => {
                self.procs.set_heap(pid, heap + bytes);
                Ok(Ok(CallerFate::Answered(Reply::Range(address, bytes))))
            }
            Ok(Err(error)) => Ok(Err(error)),
            Err(Failed) => Err(SwapFault),
        }
    }

    // DecreaseHeap: the pages at the end of the heap go; places without a page are passed over.
    pub(super) fn decrease_heap(&mut self, bytes: u32) -> Result<CallerFate, XousError>
        requires whole { IsWhole W.SwapStore self.old }
        requires usable { IsUsable self.old }
        requires matched { AreHeapsMatched (machine_of W.held self.old).process (machine_of W.held self.old).ledger }
        ensures outcome { outcome_of self.old.cursor (machine_of W.held self.new) result
            ≡ unless_refused (decrease_refusals (machine_of W.held self.old) bytes)
            (Served (decrease_served (machine_of W.held self.old) bytes)) }
        ensures undone { IfUndone result (self.new ≡ self.old) }
        ensures log { self.new.log ≡ self.old.log }
        ensures stays { StaysUsable W.SwapStore self.old self.new }
    {
        if bytes % PAGE_SIZE != 0 {
            return Err(XousError::BadAlignment);
        }
        let heap = self.procs.heap(self.cursor.pid);
        if bytes > heap {
            return Err(XousError::InvalidLimit);
        }
        let first = self.caller_place(HEAP_START + (heap - bytes));
        match self.mem.clear_run(first, bytes / PAGE_SIZE) {
            Ok(()) => {
                self.procs.set_heap(self.cursor.pid, heap - bytes);
                Ok(CallerFate::Answered(Reply::Plain))
            }
            Err(error) => Err(error),
        }
    }
}
