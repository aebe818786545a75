//! The state of the machine is spelled: a run that goes on from these bytes is one that was never cut.

ghost use Rattle.std.specs.Prelude.{◌≡◌, ◌≤◌, true, false, OnErr, OnOk};
ghost use Rattle.machine_laws.specs.Reserved.{IsReservedByThread};
ghost use Rattle.save_path.specs.Written.{IsSaved};
ghost use Rattle.suspend_image.specs.Saveable.{IsSaveable};
ghost use Rattle.suspend_image.specs.Sheets.{room_for, with_bytes};
ghost use Rattle.suspend_image.specs.StateBytes.{saved_bytes};
ghost use Rattle.vm_memory.specs.Bytes.{MeansBytes, none_out};
ghost use Rattle.vm_memory.specs.Memory.{has_failed, store_of};
ghost use Rattle.vm_memory.specs.Tie.{IsTied};
ghost use Rattle.xk_base.specs.Outside.{Rose};
ghost use Rattle.xk_kernel.specs.Knowing.{ComesTo, PutsNoneOut};
ghost use Rattle.xk_kernel.specs.Sound.{IsSound, IsUsable, Keeps};
ghost use Rattle.xk_kernel.specs.State.{machine_of};
ghost use Rattle.xk_kernel.specs.Stepping.{last_of};
ghost use Rattle.xk_base.specs.declared.limits.TheConstants.{STEP_LIMIT};

use crate::kernel::{Kernel, SwapFault};
use save_path::{Numbers, save};
use suspend_image::Sheet;
use xk_base::Failed;
use xk_ports::SwapStore;

impl<W: SwapStore> Kernel<W> {
    /// Writes the bytes that spell the state of the machine, in place of what the sheet held: with them
    /// a run goes on from it. The sheet has the room of one that was made for the machine's processes
    /// and pages. The machine stays as it is; pages that are out come in one by one, and others may go
    /// out in their place. Where the bytes of pages aren't known, each page has in the sheet the bytes
    /// that it had as it was read. Only `close` may follow a `SwapFault`.
    pub fn save(&mut self, sheet: &mut Sheet) -> Result<(), SwapFault>
        requires sound { IsSound W.SwapStore self.old }
        requires usable { IsUsable self.old }
        requires room { let m = machine_of W.held self.old in room_for m.processes m.capacity ≤ sheet.old.room }
        ensures sound { IsSound W.SwapStore self.new }
        ensures usable { OnOk result (IsUsable self.new) }
        ensures failed { OnErr result (has_failed self.new.mem ≡ true) }
        // The machine is as before, whatever is answered.
        ensures machine { ComesTo (MeansBytes W.SwapStore self.old.mem) (machine_of W.held self.new) (machine_of W.held self.old) }
        ensures means { MeansBytes W.SwapStore self.old.mem → MeansBytes W.SwapStore self.new.mem }
        // The sheet has its state bytes where the bytes of pages are known, and else all of them but those.
        ensures saved { MeansBytes W.SwapStore self.old.mem
            → OnOk result (sheet.new ≡ with_bytes (saved_bytes (machine_of W.held self.new)) sheet.old) }
        ensures alike { OnOk result (IsSaved (MeansBytes W.SwapStore self.old.mem) (machine_of W.held self.new) sheet.new.bytes) }
        // These bytes are read as the machine again (suspend_image): its numbers fit into words.
        ensures saveable { let m = machine_of W.held self.new in
            OnOk result (m.steps ≤ STEP_LIMIT → IsReservedByThread m → IsSaveable m) }
        ensures room { sheet.new.room ≡ sheet.old.room }
        ensures last { last_of self.new ≡ last_of self.old }
        // A swap fault comes only where the store's count rose and a page is out. No page goes out where none is.
        ensures cause { OnErr result (Rose (W.faults (store_of self.old.mem)) (W.faults (store_of self.new.mem))) }
        ensures out { OnErr result (none_out self.old.mem ≡ false) }
        ensures none { PutsNoneOut self.old self.new }
        ensures tie { IsTied W.held self.new.mem }
        ensures keeps { Keeps W.SwapStore self.old self.new }
    {
        let numbers = Numbers {
            cursor: self.cursor,
            next: self.next,
            steps: self.steps,
            compare: self.timer.compare(),
            reserved: self.reserved,
        };
        let saved = save(
            &mut self.mem,
            &self.threads,
            &self.procs,
            &self.servers,
            &self.queues,
            &self.claims,
            numbers,
            sheet,
        );
        match saved {
            Ok(()) => Ok(()),
            Err(Failed) => Err(SwapFault),
        }
    }
}
