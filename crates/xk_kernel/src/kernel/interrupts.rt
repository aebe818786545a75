//! Interrupts come, and their handlers start and end.

ghost use Rattle.std.specs.Prelude.{◌≡◌, ◌+◌, ◌<◌, ◌≤◌, [], is_some, length, true};
ghost use Rattle.machine_model.specs.Ending.Ends.{handler_ended};
ghost use Rattle.machine_model.specs.Runs.Matched.{Matched};
ghost use Rattle.machine_model.specs.State.Changes.{settled};
ghost use Rattle.machine_model.specs.State.Order.{ready_at};
ghost use Rattle.machine_model.specs.Stepping.Events.{raised};
ghost use Rattle.machine_model.specs.Stepping.Interrupts.{delivered};
ghost use Rattle.machine_model.specs.Stepping.Step.{after};
ghost use Rattle.xk_base.specs.declared.records.What.TheVariants.{End};
ghost use Rattle.xk_kernel.specs.Sound.{IsWhole};
ghost use Rattle.xk_kernel.specs.State.{machine_of};
ghost use Rattle.xk_kernel.specs.Stepping.{Becomes};
ghost use Rattle.xk_kernel.specs.Telling.{Tells};

use crate::kernel::Kernel;
use irq_path::{deliver, handler_id};
use thread_table::ThreadState;
use xk_base::limits::INTERRUPT_LIMIT;
use xk_base::{Pid, What};
use xk_parts::wait;
use xk_ports::SwapStore;

impl<W: SwapStore> Kernel<W> {
    // Delivery is tried: where the interrupt thread of the process runs no handler and the process has
    // a pending number, the handler of the lowest starts. Whether one does is the answer.
    pub(super) fn deliver(&mut self, pid: Pid) -> bool
        requires whole { IsWhole W.SwapStore self.old }
        requires room { length self.old.log.records < self.old.log.room }
        ensures whole { IsWhole W.SwapStore self.new }
        ensures tells { Tells W.held self.old self.new (settled (delivered pid (machine_of W.held self.old))) }
        ensures starts { result ≡ is_some (delivered pid (machine_of W.held self.old)).delivery }
        ensures mem { self.new.mem ≡ self.old.mem }
    {
        deliver(&mut self.threads, &mut self.claims, &mut self.log, pid)
    }

    // Interrupt `k` comes. It is pending where it is claimed, and delivery is tried for the process
    // that claimed it; where its handler starts, the cursor goes there. A reservation ends either way.
    pub(super) fn raise(&mut self, k: u8)
        requires whole { IsWhole W.SwapStore self.old }
        requires matched { Matched (machine_of W.held self.old) }
        requires step { self.old.log.step ≡ self.old.steps }
        requires empty { self.old.log.records ≡ [] }
        ensures whole { IsWhole W.SwapStore self.new }
        ensures becomes { Becomes W.held self.new (raised k (machine_of W.held self.old)) }
        ensures mem { self.new.mem ≡ self.old.mem }
        ensures room { self.new.log.room ≡ self.old.log.room }
    {
        self.reserved = None;
        if k >= INTERRUPT_LIMIT {
            return;
        }
        let Some(pid) = self.claims.pend(k) else {
            return;
        };
        if self.deliver(pid) {
            self.cursor = handler_id(pid);
        }
    }

    // The handler that the thread runs whose turn it is ends, and the next delivery is tried.
    pub(super) fn end_handler(&mut self)
        requires whole { IsWhole W.SwapStore self.old }
        requires ready { ready_at (machine_of W.held self.old) self.old.cursor ≡ true }
        requires handler { self.old.cursor.tid.0 ≡ 1 }
        requires room { length self.old.log.records + 2 ≤ self.old.log.room }
        ensures whole { IsWhole W.SwapStore self.new }
        ensures tells { let ended = handler_ended self.old.cursor.pid (machine_of W.held self.old) in
            Tells W.held self.old self.new (after (End self.old.cursor) (settled ended)) }
        ensures mem { self.new.mem ≡ self.old.mem }
    {
        let who = self.cursor;
        self.log.push(What::End(who));
        wait(&mut self.threads, who, ThreadState::Idle);
        self.deliver(who.pid);
    }
}
