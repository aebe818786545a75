//! The instruction of a thread is executed over the memory of its process, with the timer's page over it
//! where the process has claimed the timer's interrupt.

ghost use Rattle.std.specs.Prelude.{◌≡◌, ◌%◌, false, IsSome, Some};
ghost use Rattle.machine_model.specs.Runs.Matched.{Matched};
ghost use Rattle.machine_model.specs.State.Machine.{Thread as ModelThread};
ghost use Rattle.machine_model.specs.Stepping.Reservations.{reserved_by};
ghost use Rattle.rv32_atomics.specs.Performing.{Core, LeavesRegistersUnlessDone, Performs};
ghost use Rattle.rv32_hart.specs.Running.{GoesOnAligned, IfFailed, UnlessFailed, view_of};
ghost use Rattle.xk_base.specs.Outside.{Rose};
ghost use Rattle.xk_kernel.specs.Knowing.{KnowsBytes};
ghost use Rattle.xk_kernel.specs.Running.{LeavesRun, RunsKnown, RunsSome, timed_view};
ghost use Rattle.xk_kernel.specs.Sound.{IsUsable, IsWhole};
ghost use Rattle.xk_kernel.specs.State.{machine_of};

use crate::kernel::Kernel;
use rv32_atomics::run_any;
use rv32_hart::Ran;
use std::mem::replace;
use thread_table::Thread;
use timer_device::{Timer, TimerView};
use vm_memory::User;
use xk_base::{ThreadId, UserMemory};
use xk_ports::SwapStore;

// Executes the instruction at the pc over a memory with the timer's page over it, and hands the memory
// back, alone, so that what was lent for it is known to come back. What it keeps besides stays.
fn run_over<U: UserMemory>(
    thread: &mut Thread,
    reserved: &mut Option<u32>,
    inner: U,
    timer: &mut Timer,
    on: bool,
    steps: u32,
    ran: &mut Ran,
) -> U
    requires aligned { thread.old.pc % 4 ≡ 0 }
    requires fit { U.fit inner }
    requires same { U.same_rest inner inner }
    ensures performs { let told = view_of U.UserMemory inner in
        let left = view_of U.UserMemory result in
        let old : Core = record { regs = thread.old.regs; reserved = reserved.old } in
        let new : Core = record { regs = thread.new.regs; reserved = reserved.new } in
        Performs (timed_view on steps timer.old told) (timed_view on steps timer.new left) old new thread.old.pc ran.new }
    ensures leaves { LeavesRegistersUnlessDone thread.old.regs thread.new.regs ran.new }
    ensures rest { U.same_rest inner result }
    // A timer whose page isn't there stays.
    ensures timer { on ≡ false → timer.new ≡ timer.old }
    ensures fit { UnlessFailed ran.new (U.fit result) }
    ensures unfit { IfFailed ran.new (¬ U.fit result) }
    ensures cause { IfFailed ran.new (Rose (U.faults inner) (U.faults result)) }
    // Also where memory tells nothing.
    ensures aligned { GoesOnAligned ran.new }
    ensures thread { thread.new ≡ record thread.old { regs = thread.new.regs } }
{
    let mut view = TimerView {
        inner,
        timer: replace(timer, Timer::new()),
        on,
        steps,
    };
    *ran = run_any(&mut thread.regs, thread.pc, reserved, &mut view);
    let TimerView {
        inner,
        timer: left,
        on: _,
        steps: _,
    } = view;
    *timer = left;
    inner
}

impl<W: SwapStore> Kernel<W> {
    // The address that the thread has reserved, if it has.
    pub(super) fn reserved_by(&self, who: ThreadId) -> Option<u32>
        ensures { result ≡ reserved_by who (machine_of W.held self.now).reserved }
    {
        match self.reserved {
            Some((holder, address)) if holder == who => Some(address),
            _ => None,
        }
    }

    // Executes the instruction at the pc of a thread that has reserved this address. It goes on with
    // its registers and its pc; a call of the kernel and a trap leave them.
    pub(super) fn run(&mut self, who: ThreadId, reserved: &mut Option<u32>) -> Ran
        requires whole { IsWhole W.SwapStore self.old }
        requires usable { IsUsable self.old }
        requires matched { Matched (machine_of W.held self.old) }
        requires there { IsSome ((machine_of W.held self.old).threads who) }
        requires aligned { (t : ModelThread) → (machine_of W.held self.old).threads who ≡ Some t → t.pc % 4 ≡ 0 }
        requires reserved { reserved.old ≡ reserved_by who (machine_of W.held self.old).reserved }
        // Over known bytes it is the instruction that the machine performs.
        ensures performs { let m = machine_of W.held self.old in
            KnowsBytes W.SwapStore self.old self.new → UnlessFailed result ((t : ModelThread) → m.threads who ≡ Some t
            → RunsKnown m (machine_of W.held self.new) who t reserved.new result) }
        // Over any bytes it is some instruction of the thread, and all but the bytes of pages is as that leaves it.
        ensures some { let m = machine_of W.held self.old in
            UnlessFailed result ((t : ModelThread) → m.threads who ≡ Some t
            → RunsSome m (machine_of W.held self.new) who t reserved.new result) }
        ensures leaves { LeavesRun W.SwapStore self.old self.new who result }
    {
        let on = self.has_timer(who.pid);
        let thread = self.threads.thread_mut(who);
        let user = User {
            mem: &mut self.mem,
            pid: who.pid,
        };
        let mut ran = Ran::Failed;
        let user = run_over(
            thread,
            reserved,
            user,
            &mut self.timer,
            on,
            self.steps,
            &mut ran,
        );
        let User { mem: _, pid: _ } = user;
        match ran {
            Ran::Next(next) | Ran::Device { next, .. } => thread.pc = next,
            Ran::Ecall | Ran::Trap { .. } | Ran::Failed => {}
        }
        ran
    }
}
