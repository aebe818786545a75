//! The kernel is made again of a state.

ghost use Rattle.std.specs.Prelude.{◌≡◌, ◌<◌, ◌≤◌, true, [], IfErr, IfOk};
ghost use Rattle.resume_path.specs.Resumable.{CanSplit, IsResumable, resumed_page_frames, resumed_size, state_pages};
ghost use Rattle.snapshot_rows.specs.Machines.{machine_of as state_machine};
ghost use Rattle.vm_memory.specs.Bytes.{MeansBytes, none_out};
ghost use Rattle.vm_memory.specs.Memory.{size, store_of};
ghost use Rattle.vm_memory.specs.Tie.{IsTied};
ghost use Rattle.xk_base.specs.Outside.{Rose};
ghost use Rattle.xk_kernel.specs.Knowing.{ComesTo};
ghost use Rattle.xk_kernel.specs.Sound.{IsSound, IsUsable};
ghost use Rattle.xk_kernel.specs.State.{machine_of};
ghost use Rattle.xk_kernel.specs.Stepping.{last_of};
ghost use Rattle.xk_ports.specs.Keeping.{KeepsStore};

use crate::kernel::Kernel;
use resume_path::{Resumed, resume};
use std::alloc::Global;
use suspend_image::State;
use vm_memory::{BootError, BootFault};
use xk_ports::SwapStore;

impl<W: SwapStore> Kernel<W> {
    /// Builds the kernel again from a state that a file spells, with so many of the pages that there may be in slots of the
    /// store. All memory of the run is taken here. Want of it hands the store back, and so does `SwapFault`, which comes only
    /// where the state has more pages than there are frames for.
    pub fn resume(
        alloc: Global,
        state: &State,
        file: &[u8],
        slots: u32,
        store: W,
    ) -> Result<Kernel<W>, BootFault<W>>
        requires resumable { IsResumable file.now state.now }
        requires split { CanSplit state.now slots }
        requires slots { slots ≤ W.slot_count store }
        ensures sound { IfOk result (λ k. IsSound W.SwapStore k) }
        ensures usable { IfOk result (λ k. IsUsable k) }
        // Bytes stand as the file says where the store is honest and tells, or no page is out.
        ensures machine { IfOk result
            (λ k. ComesTo (MeansBytes W.SwapStore k.mem) (machine_of W.held k) (state_machine file.now state.now)) }
        // A page is out only where the state has more pages than there are frames for pages.
        ensures near { state_pages file.now state.now ≤ resumed_page_frames state.now slots → IfOk result (λ k. none_out k.mem ≡ true) }
        ensures records { IfOk result (λ k. last_of k ≡ []) }
        ensures tie { IfOk result (λ k. IsTied W.held k.mem) }
        ensures size { IfOk result (λ k. size k.mem ≡ resumed_size state.now slots) }
        ensures store { IfOk result (λ k. KeepsStore W.SwapStore store (store_of k.mem)) }
        ensures back { IfErr result (λ fault. KeepsStore W.SwapStore store fault.store) }
        // A swap fault comes only where the store's count rose and the pages don't fit in frames.
        ensures cause { IfErr result (λ fault. fault.why ≡ BootError.SwapFault → Rose (W.faults store) (W.faults fault.store)) }
        ensures out { IfErr result (λ fault. fault.why ≡ BootError.SwapFault
            → resumed_page_frames state.now slots < state_pages file.now state.now) }
    {
        match resume(alloc, state, file, slots, store) {
            Ok(
                Resumed {
                    mem,
                    threads,
                    procs,
                    servers,
                    queues,
                    claims,
                    log,
                    cursor,
                    next,
                    steps,
                    timer,
                    reserved,
                },
            ) => Ok(Kernel {
                mem,
                threads,
                procs,
                servers,
                queues,
                claims,
                log,
                cursor,
                next,
                steps,
                timer,
                reserved,
            }),
            Err(fault) => Err(fault),
        }
    }
}
