//! The calls on interrupts. The caller is the thread whose turn it is.

ghost use Rattle.std.specs.Prelude.{◌≡◌, OnErr};
ghost use Rattle.machine_model.specs.Calling.InterruptCalls.{claim_refusals, claim_served, free_refusals, free_served};
ghost use Rattle.machine_model.specs.Runs.Matched.{Matched};
ghost use Rattle.machine_model.specs.State.Changes.{Served, unless_refused};
ghost use Rattle.xk_kernel.specs.Calling.{outcome_of};
ghost use Rattle.xk_kernel.specs.Sound.{IsWhole};
ghost use Rattle.xk_kernel.specs.State.{machine_of};

use crate::kernel::Kernel;
use crate::kernel::calls::CallerFate;
use crate::kernel::ringing::end_claim;
use syscall_codec::Reply;
use xk_base::XousError;
use xk_base::limits::{INTERRUPT_LIMIT, TIMER_INTERRUPT};
use xk_ports::SwapStore;

impl<W: SwapStore> Kernel<W> {
    // ClaimInterrupt: the interrupt is the caller's process's.
    pub(super) fn claim_interrupt(
        &mut self,
        number: u32,
        handler: u32,
        arg: u32,
    ) -> Result<CallerFate, XousError>
        requires whole { IsWhole W.SwapStore self.old }
        ensures whole { IsWhole W.SwapStore self.new }
        ensures outcome { outcome_of self.old.cursor (machine_of W.held self.new) result
            ≡ unless_refused (claim_refusals (machine_of W.held self.old) number handler)
            (Served (claim_served (machine_of W.held self.old) number handler arg)) }
        ensures refused { OnErr result (self.new ≡ self.old) }
        ensures mem { self.new.mem ≡ self.old.mem }
        ensures log { self.new.log ≡ self.old.log }
    {
        if number >= INTERRUPT_LIMIT as u32 {
            return Err(XousError::InterruptNotFound);
        }
        if handler % 4 != 0 {
            return Err(XousError::BadAlignment);
        }
        self.claims
            .claim(number as u8, self.cursor.pid, handler, arg)?;
        Ok(CallerFate::Answered(Reply::Plain))
    }

    // FreeInterrupt: nobody has claimed the interrupt any more, and it isn't pending. The timer is
    // disarmed where it is its own.
    pub(super) fn free_interrupt(&mut self, number: u32) -> Result<CallerFate, XousError>
        requires whole { IsWhole W.SwapStore self.old }
        requires matched { Matched (machine_of W.held self.old) }
        ensures whole { IsWhole W.SwapStore self.new }
        ensures outcome { outcome_of self.old.cursor (machine_of W.held self.new) result
            ≡ unless_refused (free_refusals (machine_of W.held self.old) number)
            (Served (free_served (machine_of W.held self.old) number)) }
        ensures refused { OnErr result (self.new ≡ self.old) }
        ensures mem { self.new.mem ≡ self.old.mem }
        ensures log { self.new.log ≡ self.old.log }
    {
        if number >= INTERRUPT_LIMIT as u32 {
            return Err(XousError::InterruptNotFound);
        }
        self.claims.free(number as u8, self.cursor.pid)?;
        end_claim(&mut self.timer, number == TIMER_INTERRUPT as u32);
        Ok(CallerFate::Answered(Reply::Plain))
    }
}
