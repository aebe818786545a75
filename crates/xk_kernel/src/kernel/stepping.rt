//! One step.

ghost use Rattle.std.specs.Prelude.{◌≡◌, ◌<◌, ◌⊎◌, true, false, is_some, IfOk, None, OnErr, OnOk, Some, ◌+◌, IsTrue, map};
ghost use Rattle.machine_model.specs.Runs.Kept.{Settles};
ghost use Rattle.machine_model.specs.State.Machine.{Thread as ModelThread};
ghost use Rattle.machine_model.specs.State.Order.{actor};
ghost use Rattle.std.specs.Option.{option_map};
ghost use Rattle.machine_model.specs.Stepping.Reservations.{reservation_of};
ghost use Rattle.machine_model.specs.Stepping.Step.{console_told, ends_handler, ends_thread, record_of};
ghost use Rattle.vm_memory.specs.Bytes.{none_out};
ghost use Rattle.vm_memory.specs.Memory.{has_failed, processes, store_of};
ghost use Rattle.vm_memory.specs.Tie.{IsTied};
ghost use Rattle.xk_base.specs.Tables.Circle.{is_thread_id};
ghost use Rattle.xk_base.specs.Calls.Registers.{reg_at};
ghost use Rattle.xk_base.specs.Outside.{Rose};
ghost use Rattle.xk_kernel.specs.Acting.{Acts, TellsFew, told_by};
ghost use Rattle.xk_kernel.specs.Knowing.{IsCrowded, KnowsBytes};
ghost use Rattle.xk_kernel.specs.Sound.{IsSound, IsUsable, IsWhole, Keeps};
ghost use Rattle.xk_kernel.specs.State.{as_reservation, machine_of};
ghost use Rattle.xk_kernel.specs.Stepping.{CountsStep, DoesStep, MayExchange};
ghost use Rattle.xk_kernel.specs.Telling.{Leaves, StaysUsable};
ghost use Rattle.xk_base.specs.declared.limits.TheConstants.{STEP_LIMIT};

use crate::kernel::threads::THREAD_RETURN;
use crate::kernel::{Kernel, Stepped, SwapFault};
use irq_path::HANDLER_RETURN;
use rv32_hart::Ran;
use xk_base::{ThreadId, What};
use xk_ports::SwapStore;

/// The register a0.
const A0: u8 = 10;

// The reservation of a thread that has reserved this address.
pub(super) fn reservation(who: ThreadId, reserved: Option<u32>) -> Option<(ThreadId, u32)>
    ensures { option_map as_reservation result ≡ reservation_of who reserved }
{
    let address = reserved?;
    Some((who, address))
}

// Whether a fetch there ends the thread.
#[inline(always)]
pub(super) fn ends_thread(who: ThreadId, pc: u32) -> bool
    ensures { result ≡ ends_thread who pc }
{
    pc == THREAD_RETURN && who.tid.0 > 1
}

// Whether a fetch there ends the interrupt handler.
#[inline(always)]
pub(super) fn ends_handler(who: ThreadId, pc: u32) -> bool
    ensures { result ≡ ends_handler who pc }
{
    pc == HANDLER_RETURN && who.tid.0 == 1
}

impl<W: SwapStore> Kernel<W> {
    /// Does the next step: one instruction, one whole system call, one end of a thread or of an
    /// interrupt handler, or one fatal trap. `Idle` comes exactly where no thread is Ready. A step of a
    /// thread that goes on searches nothing, and no step takes memory. Only `close` may follow
    /// a `SwapFault`.
    pub fn step(&mut self) -> Result<Stepped, SwapFault>
        requires sound { IsSound W.SwapStore self.old }
        requires usable { IsUsable self.old }
        requires few { (machine_of W.held self.old).steps < STEP_LIMIT }
        ensures sound { IsSound W.SwapStore self.new }
        ensures usable { OnOk result (IsUsable self.new) }
        ensures failed { OnErr result (has_failed self.new.mem ≡ true) }
        ensures counts { IfOk result (CountsStep W.held self.old self.new) }
        ensures there { OnErr result (is_some (actor (machine_of W.held self.old)) ≡ true) }
        // The next state and the records, where bytes are known.
        ensures does { KnowsBytes W.SwapStore self.old self.new → IfOk result (DoesStep W.held self.old self.new) }
        // A swap fault comes only where the store's count rose and pages may move. Only there is a page out afterwards.
        ensures cause { OnErr result (Rose (W.faults (store_of self.old.mem)) (W.faults (store_of self.new.mem))) }
        ensures full { OnErr result (MayExchange W.held self.old) }
        ensures out { none_out self.new.mem ≡ false → MayExchange W.held self.old }
        ensures tie { IsTied W.held self.new.mem }
        ensures keeps { Keeps W.SwapStore self.old self.new }
    {
        let Some(who) = self.actor() else {
            return Ok(Stepped::Idle);
        };
        self.step_of(who)
    }

    // The step of the thread, whose it is.
    fn step_of(&mut self, who: ThreadId) -> Result<Stepped, SwapFault>
        requires sound { IsSound W.SwapStore self.old }
        requires usable { IsUsable self.old }
        requires few { (machine_of W.held self.old).steps < STEP_LIMIT }
        requires who { actor (machine_of W.held self.old) ≡ Some who }
        ensures sound { IsSound W.SwapStore self.new }
        ensures counts { IfOk result (CountsStep W.held self.old self.new) }
        ensures there { OnErr result (is_some (actor (machine_of W.held self.old)) ≡ true) }
        ensures does { KnowsBytes W.SwapStore self.old self.new → IfOk result (DoesStep W.held self.old self.new) }
        ensures leaves { Leaves W.SwapStore self.old self.new (MayExchange W.held self.old) result }
    {
        let number = self.steps + 1;
        let reserved = self.act(who)?;
        self.steps = number;
        self.reserved = reservation(who, reserved);
        self.ring();
        Ok(Stepped::Did)
    }

    // The thread, whose step it is, ends or does its instruction, and answers the address that it has
    // reserved then. The step isn't counted yet.
    fn act(&mut self, who: ThreadId) -> Result<Option<u32>, SwapFault>
        requires sound { IsSound W.SwapStore self.old }
        requires usable { IsUsable self.old }
        requires few { self.old.steps < STEP_LIMIT }
        requires who { actor (machine_of W.held self.old) ≡ Some who }
        ensures acts { KnowsBytes W.SwapStore self.old self.new → IfOk result (Acts W.held self.old self.new who) }
        // Over any bytes the machine is matched once the step is counted, and the log tells of it.
        ensures settles { OnOk result (Settles (machine_of W.held self.old) (machine_of W.held self.new)) }
        ensures tells { OnOk result (TellsFew self.old self.new) }
        ensures leaves { let left = (told_by who (machine_of W.held self.old)).machine.ledger in
            Leaves W.SwapStore self.old self.new ((none_out self.old.mem ≡ false) ⊎ IsCrowded self.old left) result }
    {
        let thread = self.thread(who);
        if ends_thread(who, thread.pc) {
            let a0 = thread.regs.get(A0);
            self.act_end(who, a0);
            return Ok(None);
        }
        if ends_handler(who, thread.pc) {
            self.act_handler(who);
            return Ok(None);
        }
        let mut reserved = self.reserved_by(who);
        match self.run(who, &mut reserved) {
            Ran::Next(_) => {
                self.begin(who);
                Ok(reserved)
            }
            Ran::Device { offset, value, .. } => {
                self.tell_console(who, offset, value);
                Ok(reserved)
            }
            Ran::Trap { cause, value } => {
                self.begin(who);
                self.die(What::Fault(who, cause, value));
                Ok(reserved)
            }
            Ran::Ecall => {
                let words = self.thread(who).regs.arguments();
                self.begin(who);
                self.call(words)?;
                Ok(reserved)
            }
            Ran::Failed => Err(SwapFault),
        }
    }

    // The thread, whose step it is and which stands where threads end, ends with this in a0.
    fn act_end(&mut self, who: ThreadId, a0: u32)
        requires sound { IsSound W.SwapStore self.old }
        requires usable { IsUsable self.old }
        requires few { self.old.steps < STEP_LIMIT }
        requires who { actor (machine_of W.held self.old) ≡ Some who }
        requires ends { (t : ModelThread) → (machine_of W.held self.old).threads who ≡ Some t → (ends_thread who t.pc ≡ true)
            × (reg_at t.regs 10 ≡ a0) }
        ensures acts { Acts W.held self.old self.new who None }
        ensures stays { StaysUsable W.SwapStore self.old self.new }
    {
        self.begin(who);
        self.end_thread(a0);
    }

    // The thread, whose step it is and which stands where handlers end, ends its handler.
    fn act_handler(&mut self, who: ThreadId)
        requires sound { IsSound W.SwapStore self.old }
        requires usable { IsUsable self.old }
        requires few { self.old.steps < STEP_LIMIT }
        requires who { actor (machine_of W.held self.old) ≡ Some who }
        requires ends { (t : ModelThread) → (machine_of W.held self.old).threads who ≡ Some t → (ends_thread who t.pc ≡ false)
            × (ends_handler who t.pc ≡ true) }
        ensures acts { Acts W.held self.old self.new who None }
        ensures stays { StaysUsable W.SwapStore self.old self.new }
    {
        self.begin(who);
        self.end_handler();
    }

    // A step of the thread begins, which stored the low byte of a value at an offset of the console's
    // page.
    fn tell_console(&mut self, who: ThreadId, offset: u32, value: u32)
        requires whole { IsWhole W.SwapStore self.old }
        requires id { IsTrue (is_thread_id (processes self.old.mem) who) }
        requires few { self.old.steps < STEP_LIMIT }
        ensures whole { IsWhole W.SwapStore self.new }
        ensures machine { machine_of W.held self.new ≡ record (machine_of W.held self.old) { cursor = who } }
        ensures mem { self.new.mem ≡ self.old.mem }
        ensures log { self.new.log
            ≡ record self.old.log {
              step = self.old.steps + 1;
              records = map (record_of (self.old.steps + 1))
                  (console_told who offset value);
            } }
    {
        self.begin(who);
        if offset == 0 {
            self.log.push(What::Byte(who, (value % 256) as u8));
        }
    }
}
