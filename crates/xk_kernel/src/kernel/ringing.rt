//! The timer raises its interrupt at the end of a step, and is disarmed where the claim on that interrupt ends.

ghost use Rattle.std.specs.Prelude.{List, ◌≡◌, ◌<◌, All, length};
ghost use Rattle.machine_model.specs.Stepping.Interrupts.{disarmed_if, is_claim_of};
ghost use Rattle.xk_base.specs.declared.limits.TheConstants.{RECORD_LIMIT, TIMER_INTERRUPT};
ghost use Rattle.xk_base.specs.declared.records.What.{What as Happened};
ghost use Rattle.xk_kernel.specs.Ringing.{IsTimersClaimThere, LogTells, Rings};
ghost use Rattle.xk_kernel.specs.Sound.{IsWhole};
ghost use Rattle.xk_kernel.specs.State.{machine_of};

use crate::kernel::Kernel;
use irq_path::{handler_id, place_irq};
use timer_device::Timer;
use xk_base::Pid;
use xk_base::limits::TIMER_INTERRUPT;
use xk_ports::SwapStore;

// The timer is disarmed where the claim on its interrupt ends.
pub(super) fn end_claim(timer: &mut Timer, ended: bool)
    ensures { timer.new ≡ disarmed_if ended timer.old }
{
    if ended {
        timer.disarm();
    }
}

impl<W: SwapStore> Kernel<W> {
    // Whether the process has claimed the timer's interrupt, so that it has the timer's page.
    pub(super) fn has_timer(&self, pid: Pid) -> bool
        ensures { result ≡ is_claim_of pid ((machine_of W.held self.now).claims TIMER_INTERRUPT) }
    {
        match self.claims.get(TIMER_INTERRUPT) {
            Some(claim) => claim.pid == pid,
            None => false,
        }
    }

    // The timer at the end of a step, which was counted: where it is due, it is disarmed and its
    // interrupt comes, as by an event. The record of a handler that starts then goes to its place among
    // those of the step.
    pub(super) fn ring(&mut self)
        requires whole { IsWhole W.SwapStore self.old }
        requires claim { IsTimersClaimThere (machine_of W.held self.old) }
        requires few { length self.old.log.records < RECORD_LIMIT }
        requires step { All (λ rec. rec.step ≡ self.old.log.step) self.old.log.records }
        ensures whole { IsWhole W.SwapStore self.new }
        ensures rings { (told : List Happened) → LogTells self.old.log told → Rings W.held self.old self.new told }
        ensures mem { self.new.mem ≡ self.old.mem }
        ensures room { self.new.log.room ≡ self.old.log.room }
    {
        if !self.timer.due(self.steps) {
            return;
        }
        let Some(pid) = self.claims.pend(TIMER_INTERRUPT) else {
            return;
        };
        if self.deliver(pid) {
            self.cursor = handler_id(pid);
            place_irq(&mut self.log, pid);
        }
    }
}
