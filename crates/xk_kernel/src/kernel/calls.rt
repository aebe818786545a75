//! System calls.

ghost use Rattle.std.specs.Prelude.{ℕ, List, ◌≡◌, ◌+◌, ◌<◌, ◌≤◌, true, false, length, OnOk, IfOk};
ghost use Rattle.machine_model.specs.Calling.Calls.{call};
ghost use Rattle.machine_model.specs.State.Changes.{Refused, Retried, call_settled};
ghost use Rattle.machine_model.specs.State.Order.{ready_at};
ghost use Rattle.machine_model.specs.Stepping.Step.{after};
ghost use Rattle.syscall_codec.specs.Calls.{Asks};
ghost use Rattle.xk_base.specs.Tables.Circle.{thread_ids};
ghost use Rattle.xk_base.specs.declared.limits.TheConstants.{PROCESS_LIMIT};
ghost use Rattle.xk_base.specs.declared.records.What.TheVariants.{Call as Called};
ghost use Rattle.xk_kernel.specs.Calling.{CrowdsBy, IfUndone, IsCaller, ServesAs, is_plain_call, is_refused_caller};
ghost use Rattle.xk_kernel.specs.Knowing.{KnowsBytes};
ghost use Rattle.xk_kernel.specs.Sound.{IsWhole};
ghost use Rattle.xk_kernel.specs.State.{machine_of};
ghost use Rattle.xk_kernel.specs.Telling.{Leaves, Tells, TellsOver};

use crate::kernel::{Kernel, SwapFault};
use syscall_codec::{Call, Reply, can_wait, read_call, reply_words};
use xk_base::{What, XousError};
use xk_ports::SwapStore;

/// What becomes of the caller of a system call that is served.
#[derive(Clone, Copy, Debug, PartialEq, Eq)]
pub enum CallerFate {
    /// The caller is answered.
    Answered(Reply),
    /// The caller waits.
    Waits,
    /// The caller will make the call again, which did nothing.
    Retries,
}

impl<W: SwapStore> Kernel<W> {
    // The thread whose turn it is makes the call with these words.
    pub(super) fn call(&mut self, words: [u32; 8]) -> Result<(), SwapFault>
        requires calls { IsCaller W.SwapStore self.old }
        requires room { length self.old.log.records + thread_ids PROCESS_LIMIT + 2 ≤ self.old.log.room }
        ensures tells { let m = machine_of W.held self.old in
            OnOk result (TellsOver (KnowsBytes W.SwapStore self.old self.new) W.held self.old self.new
            (after (Called self.old.cursor words) (call_settled m (call m words)))) }
        ensures leaves { let outcome = call (machine_of W.held self.old) words in
            Leaves W.SwapStore self.old self.new (CrowdsBy W.held self.old outcome) result }
    {
        self.log.push(What::Call(self.cursor, words));
        match read_call(words) {
            Ok(asked) => self.call_asked(words, asked),
            Err(error) => {
                self.refuse(error);
                Ok(())
            }
        }
    }

    // Whether the caller is the interrupt thread, and the call can make it wait.
    fn is_refused(&self, asked: &Call) -> bool
        ensures { (words : List ℕ) → Asks words asked.now → result ≡ is_refused_caller (machine_of W.held self.now) words }
    {
        self.cursor.tid.0 == 1 && can_wait(asked)
    }

    // The call that these words ask for takes place. A call on messages, and one that ends a process or
    // a server, answers who is to be answered itself.
    fn call_asked(&mut self, words: [u32; 8], asked: Call) -> Result<(), SwapFault>
        requires calls { IsCaller W.SwapStore self.old }
        requires asks { Asks words asked }
        requires room { length self.old.log.records + thread_ids PROCESS_LIMIT + 1 ≤ self.old.log.room }
        ensures tells { let m = machine_of W.held self.old in
            OnOk result (TellsOver (KnowsBytes W.SwapStore self.old self.new) W.held self.old self.new
            (call_settled m (call m words))) }
        ensures leaves { let outcome = call (machine_of W.held self.old) words in
            Leaves W.SwapStore self.old self.new (CrowdsBy W.held self.old outcome) result }
    {
        if self.is_refused(&asked) {
            self.refuse(XousError::InvalidSyscall);
            return Ok(());
        }
        match asked {
            Call::SendMessage { .. } => self.send_message(words, false),
            Call::TrySendMessage { .. } => self.send_message(words, true),
            Call::ReceiveMessage { sid } => self.receive_message(sid, true),
            Call::TryReceiveMessage { sid } => self.receive_message(sid, false),
            Call::ReturnMemory { .. } | Call::ReturnScalar1 { .. } | Call::ReturnScalar2 { .. } => {
                self.give_back_message(words);
            }
            Call::ForwardMessage { .. } => self.forward_message(words),
            Call::TerminateProcess { .. } => self.terminate(),
            Call::DestroyServer { sid } => self.destroy_server(sid),
            _ => return self.call_plain(words, asked),
        }
        Ok(())
    }

    // The call that these words ask for, which is none of those, is served, and its caller is past it and
    // has its answer.
    fn call_plain(&mut self, words: [u32; 8], asked: Call) -> Result<(), SwapFault>
        requires calls { IsCaller W.SwapStore self.old }
        requires asks { Asks words asked }
        requires free { is_refused_caller (machine_of W.held self.old) words ≡ false }
        requires plain { is_plain_call words ≡ true }
        requires room { length self.old.log.records + 2 ≤ self.old.log.room }
        ensures tells { let m = machine_of W.held self.old in
            OnOk result (TellsOver (KnowsBytes W.SwapStore self.old self.new) W.held self.old self.new
            (call_settled m (call m words))) }
        ensures leaves { let outcome = call (machine_of W.held self.old) words in
            Leaves W.SwapStore self.old self.new (CrowdsBy W.held self.old outcome) result }
    {
        let who = self.cursor;
        let outcome = self.serve(asked)?;
        match outcome {
            Ok(CallerFate::Answered(reply)) => {
                self.pass(who);
                self.answer(who, reply_words(&reply));
            }
            Ok(CallerFate::Waits) => self.pass(who),
            Ok(CallerFate::Retries) => self.retry(),
            Err(error) => self.refuse(error),
        }
        Ok(())
    }

    // The call of the thread whose turn it is is refused: the thread is past it, and is answered the
    // error.
    pub(super) fn refuse(&mut self, error: XousError)
        requires whole { IsWhole W.SwapStore self.old }
        requires ready { ready_at (machine_of W.held self.old) self.old.cursor ≡ true }
        requires room { length self.old.log.records < self.old.log.room }
        ensures whole { IsWhole W.SwapStore self.new }
        ensures tells { Tells W.held self.old self.new (call_settled (machine_of W.held self.old) (Refused error)) }
        ensures mem { self.new.mem ≡ self.old.mem }
    {
        let who = self.cursor;
        self.pass(who);
        self.answer(who, reply_words(&Reply::Refused(error)));
    }

    // The thread whose turn it is will make its call again: its turn ends.
    pub(super) fn retry(&mut self)
        requires whole { IsWhole W.SwapStore self.old }
        requires room { length self.old.log.records < self.old.log.room }
        ensures whole { IsWhole W.SwapStore self.new }
        ensures tells { Tells W.held self.old self.new (call_settled (machine_of W.held self.old) Retried) }
        ensures mem { self.new.mem ≡ self.old.mem }
    {
        self.log.push(What::Retry(self.cursor));
        self.turn();
    }

    // What comes of the call that is asked for.
    fn serve(&mut self, asked: Call) -> Result<Result<CallerFate, XousError>, SwapFault>
        requires calls { IsCaller W.SwapStore self.old }
        requires free { (words : List ℕ) → Asks words asked → is_refused_caller (machine_of W.held self.old) words ≡ false }
        requires plain { (words : List ℕ) × Asks words asked × (is_plain_call words ≡ true) }
        ensures outcome { let old = machine_of W.held self.old in
            let new = machine_of W.held self.new in
            IfOk result (λ served. (words : List ℕ) → Asks words asked
            → ServesAs (KnowsBytes W.SwapStore self.old self.new) self.old.cursor new (call old words) served) }
        ensures undone { IfOk result (λ served. IfUndone served (self.new ≡ self.old)) }
        ensures log { self.new.log ≡ self.old.log }
        ensures leaves { let old = machine_of W.held self.old in
            Leaves W.SwapStore self.old self.new ((words : List ℕ) → Asks words asked → CrowdsBy W.held self.old (call old words)) result }
    {
        match asked {
            Call::MapMemory {
                phys,
                virt,
                size,
                flags,
            } => self.map_memory(phys, virt, size, flags),
            Call::UnmapMemory { address, size } => Ok(self.unmap_memory(address, size)),
            Call::UpdateMemoryFlags {
                address,
                size,
                flags,
            } => Ok(self.update_memory_flags(address, size, flags)),
            Call::IncreaseHeap { bytes } => self.increase_heap(bytes),
            Call::DecreaseHeap { bytes } => Ok(self.decrease_heap(bytes)),
            Call::Yield => {
                self.turn();
                Ok(Ok(CallerFate::Answered(Reply::Plain)))
            }
            Call::ClaimInterrupt {
                number,
                handler,
                arg,
            } => Ok(self.claim_interrupt(number, handler, arg)),
            Call::FreeInterrupt { number } => Ok(self.free_interrupt(number)),
            Call::CreateServerWithAddress { sid } => Ok(self.create_server(sid)),
            Call::Connect { sid } => Ok(self.connect(sid)),
            Call::TryConnect { sid } => Ok(self.try_connect(sid)),
            Call::CreateThread { entry, sp, args } => Ok(self.create_thread(entry, sp, args)),
            Call::JoinThread { tid } => Ok(self.join_thread(tid)),
            Call::GetThreadId => Ok(Ok(CallerFate::Answered(Reply::Thread(self.cursor.tid)))),
            Call::GetProcessId => {
                let pid = self.cursor.pid.0 as u32;
                Ok(Ok(CallerFate::Answered(Reply::Scalar1(pid))))
            }
            _ => unreachable!(),
        }
    }
}
