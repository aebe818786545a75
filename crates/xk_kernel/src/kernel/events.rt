//! The events beside the steps of a tick.

ghost use Rattle.std.specs.Prelude.{◌≡◌};
ghost use Rattle.machine_model.specs.Stepping.Events.{picked};
ghost use Rattle.vm_memory.specs.Memory.{store_of};
ghost use Rattle.vm_memory.specs.Tie.{IsTied};
ghost use Rattle.xk_kernel.specs.Knowing.{PutsNoneOut};
ghost use Rattle.xk_kernel.specs.Sound.{IsSound, IsUsable, IsWhole, Keeps};
ghost use Rattle.xk_kernel.specs.State.{machine_of};
ghost use Rattle.xk_kernel.specs.Stepping.{Becomes, event_done};

use crate::kernel::Kernel;
use xk_base::{Event, ThreadId};
use xk_ports::SwapStore;

impl<W: SwapStore> Kernel<W> {
    // The cursor goes to that thread, where it is Ready.
    fn pick(&mut self, who: ThreadId)
        requires whole { IsWhole W.SwapStore self.old }
        ensures whole { IsWhole W.SwapStore self.new }
        ensures machine { machine_of W.held self.new ≡ (picked who (machine_of W.held self.old)).machine }
        ensures mem { self.new.mem ≡ self.old.mem }
        ensures log { self.new.log ≡ self.old.log }
    {
        if self.is_ready_at(who) {
            self.cursor = who;
        }
    }

    /// Does the whole of `pick`, `irq` and `kill`, and nothing for `tick`, whose steps are done one by
    /// one. Its records are the last ones then. An `irq` and a `kill` end a reservation.
    pub fn event_start(&mut self, e: Event)
        requires sound { IsSound W.SwapStore self.old }
        requires usable { IsUsable self.old }
        ensures sound { IsSound W.SwapStore self.new }
        ensures usable { IsUsable self.new }
        ensures does { Becomes W.held self.new (event_done e (machine_of W.held self.old)) }
        ensures none { PutsNoneOut self.old self.new }
        // The store stays as it is.
        ensures store { store_of self.new.mem ≡ store_of self.old.mem }
        ensures tie { IsTied W.held self.new.mem }
        ensures keeps { Keeps W.SwapStore self.old self.new }
    {
        self.log.clear(self.steps);
        match e {
            Event::Tick(_) => {}
            Event::Pick(pid, tid) => self.pick(ThreadId { pid, tid }),
            Event::Kill(pid) => {
                self.reserved = None;
                if self.procs.alive(pid) {
                    self.kill(pid);
                }
            }
            Event::Irq(number) => self.raise(number),
        }
    }
}
