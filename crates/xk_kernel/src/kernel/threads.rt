//! One thread of the kernel is made, read, changed and answered; a step begins.

ghost use Rattle.std.specs.Prelude.{◌≡◌, ◌+◌, ◌<◌, [], ◌∷◌, length, IsSome, IsTrue, Some};
ghost use Rattle.machine_model.specs.State.Threads.{answer_to, change_thread, give_answers, new_thread, passed};
ghost use Rattle.vm_memory.specs.Memory.{processes};
ghost use Rattle.xk_base.specs.Tables.Circle.{is_thread_id};
ghost use Rattle.xk_base.specs.declared.records.What.TheVariants.{Reply};
ghost use Rattle.xk_kernel.specs.Sound.{IsWhole};
ghost use Rattle.xk_parts.specs.Shown.{thread_of};
ghost use Rattle.xk_kernel.specs.State.{machine_of};
ghost use Rattle.xk_kernel.specs.Telling.{Tells};
ghost use Rattle.xk_base.specs.declared.limits.TheConstants.{STEP_LIMIT};

use crate::kernel::Kernel;
use irq_path::fresh_registers;
use thread_table::{Thread, ThreadState};
use xk_base::{ThreadId, What};
use xk_parts::{answer, pass};
use xk_ports::SwapStore;

/// The address at which a thread ends: a fetch there by a thread above tid 1 ends it.
pub(super) const THREAD_RETURN: u32 = 0xFF80_3000;

// A thread that begins at an address.
pub(super) fn new_thread(entry: u32, sp: u32, args: [u32; 4]) -> Thread
    ensures { thread_of result ≡ new_thread entry sp args }
{
    Thread {
        pc: entry,
        regs: fresh_registers(THREAD_RETURN, sp, args),
        state: ThreadState::Ready,
    }
}

impl<W: SwapStore> Kernel<W> {
    // The thread of that id, which there is.
    pub(super) fn thread(&self, id: ThreadId) -> &Thread
        requires there { IsSome ((machine_of W.held self.now).threads id) }
        ensures { (machine_of W.held self.now).threads id ≡ Some (thread_of result.now) }
    {
        match self.threads.get(id) {
            Some(thread) => thread,
            None => unreachable!(),
        }
    }

    // The thread is answered: it has the words in a0 to a7, and is Ready. Its pc stays.
    pub(super) fn answer(&mut self, id: ThreadId, words: [u32; 8])
        requires whole { IsWhole W.SwapStore self.old }
        requires there { IsSome ((machine_of W.held self.old).threads id) }
        requires room { length self.old.log.records < self.old.log.room }
        ensures whole { IsWhole W.SwapStore self.new }
        ensures tells { let machine = give_answers (answer_to id words) (machine_of W.held self.old) in
            Tells W.held self.old self.new (record { machine = machine; told = Reply id words ∷ [] }) }
        ensures told { length self.new.log.records ≡ length self.old.log.records + 1 }
        ensures mem { self.new.mem ≡ self.old.mem }
    {
        answer(&mut self.threads, id, words);
        self.log.push(What::Reply(id, words));
    }

    // The thread goes past the instruction at its pc, where it is still there.
    pub(super) fn pass(&mut self, id: ThreadId)
        requires whole { IsWhole W.SwapStore self.old }
        ensures whole { IsWhole W.SwapStore self.new }
        ensures machine { machine_of W.held self.new ≡ change_thread id passed (machine_of W.held self.old) }
        ensures mem { self.new.mem ≡ self.old.mem }
        ensures log { self.new.log ≡ self.old.log }
    {
        pass(&mut self.threads, id);
    }

    // A step of the thread begins: it is its turn, and there is no record of the step so far.
    pub(super) fn begin(&mut self, who: ThreadId)
        requires whole { IsWhole W.SwapStore self.old }
        requires id { IsTrue (is_thread_id (processes self.old.mem) who) }
        requires few { self.old.steps < STEP_LIMIT }
        ensures whole { IsWhole W.SwapStore self.new }
        ensures machine { machine_of W.held self.new ≡ record (machine_of W.held self.old) { cursor = who } }
        ensures mem { self.new.mem ≡ self.old.mem }
        ensures log { self.new.log ≡ record self.old.log { step = self.old.steps + 1; records = [] } }
    {
        self.cursor = who;
        self.log.clear(self.steps + 1);
    }
}
