//! The interrupt thread of a process, and what it is as a handler begins.

ghost use Rattle.std.specs.Prelude.{◌≡◌};
ghost use Rattle.machine_model.specs.State.Threads.{fresh_registers, handler_thread, thread_id};
ghost use Rattle.xk_base.specs.declared.ids.Pid.{Pid as Process};
ghost use Rattle.xk_parts.specs.Shown.{thread_of};

use irq_claims::Due;
use thread_table::{Thread, ThreadState};
use xk_base::{Pid, Regs, ThreadId, Tid};

/// The address at which an interrupt handler ends: a fetch there by tid 1 ends it.
pub const HANDLER_RETURN: u32 = 0xFF80_2000;

/// The end of the interrupt thread's stack page.
const HANDLER_STACK: u32 = 0x7F00_1000;

/// The interrupt thread of the process.
pub fn handler_id(pid: Pid) -> ThreadId
    ensures { result ≡ thread_id pid 1 }
{
    ThreadId { pid, tid: Tid(1) }
}

/// Registers that begin with these values of ra and sp, these arguments from a0 on, and all else 0.
pub fn fresh_registers(ra: u32, sp: u32, args: [u32; 4]) -> Regs
    ensures { result ≡ fresh_registers ra sp args }
{
    let mut regs = Regs::new();
    regs.set(1, ra);
    regs.set(2, sp);
    let [a0, a1, a2, a3] = args;
    regs.set_arguments([a0, a1, a2, a3, 0, 0, 0, 0]);
    regs
}

/// The interrupt thread as the handler of what is due begins, whichever process claimed it.
pub(crate) fn handler_thread(due: Due) -> Thread
    ensures { (pid : Process) → thread_of result ≡ handler_thread due.k (record { pid = pid; handler = due.handler; argument = due.arg }) }
{
    Thread {
        pc: due.handler,
        regs: fresh_registers(HANDLER_RETURN, HANDLER_STACK, [due.k as u32, due.arg, 0, 0]),
        state: ThreadState::Ready,
    }
}
