//! The calls that make a thread and wait for one. The caller is the thread whose turn it is.

ghost use Rattle.std.specs.Prelude.{◌≡◌, true};
ghost use Rattle.machine_model.specs.State.Changes.{Served, unless_refused};
ghost use Rattle.machine_model.specs.State.Order.{ready_at};
ghost use Rattle.machine_model.specs.Calling.ThreadCalls.{create_refusals, create_served, join_refusals, join_served};
ghost use Rattle.xk_kernel.specs.Calling.{IfUndone, outcome_of};
ghost use Rattle.xk_kernel.specs.Sound.{IsWhole};
ghost use Rattle.xk_kernel.specs.State.{machine_of};

use crate::kernel::Kernel;
use crate::kernel::calls::CallerFate;
use crate::kernel::threads::new_thread;
use syscall_codec::Reply;
use thread_table::ThreadState;
use xk_base::limits::TID_LIMIT;
use xk_base::{ThreadId, Tid, XousError};
use xk_parts::wait;
use xk_ports::SwapStore;

impl<W: SwapStore> Kernel<W> {
    // CreateThread: a new thread has the least free tid.
    pub(super) fn create_thread(
        &mut self,
        entry: u32,
        sp: u32,
        args: [u32; 4],
    ) -> Result<CallerFate, XousError>
        requires whole { IsWhole W.SwapStore self.old }
        ensures whole { IsWhole W.SwapStore self.new }
        ensures outcome { let old = machine_of W.held self.old in
            let new = machine_of W.held self.new in
            outcome_of self.old.cursor new result ≡ unless_refused (create_refusals old entry) (Served (create_served old entry sp args)) }
        ensures undone { IfUndone result (self.new ≡ self.old) }
        ensures mem { self.new.mem ≡ self.old.mem }
        ensures log { self.new.log ≡ self.old.log }
    {
        if entry % 4 != 0 {
            return Err(XousError::BadAlignment);
        }
        let pid = self.cursor.pid;
        let Some(tid) = self.threads.free_tid(pid) else {
            return Err(XousError::ThreadNotAvailable);
        };
        self.threads
            .start(ThreadId { pid, tid }, new_thread(entry, sp, args));
        Ok(CallerFate::Answered(Reply::Thread(tid)))
    }

    // JoinThread: the caller waits for the end of that thread.
    pub(super) fn join_thread(&mut self, tid: u32) -> Result<CallerFate, XousError>
        requires whole { IsWhole W.SwapStore self.old }
        requires ready { ready_at (machine_of W.held self.old) self.old.cursor ≡ true }
        ensures whole { IsWhole W.SwapStore self.new }
        ensures outcome { let old = machine_of W.held self.old in
            let new = machine_of W.held self.new in
            outcome_of self.old.cursor new result ≡ unless_refused (join_refusals old tid) (Served (join_served old tid)) }
        ensures undone { IfUndone result (self.new ≡ self.old) }
        ensures mem { self.new.mem ≡ self.old.mem }
        ensures log { self.new.log ≡ self.old.log }
    {
        let who = self.cursor;
        if tid < 2 || tid > TID_LIMIT as u32 || tid == who.tid.0 as u32 {
            return Err(XousError::InvalidThread);
        }
        let awaited = Tid(tid as u8);
        let id = ThreadId {
            pid: who.pid,
            tid: awaited,
        };
        if self.threads.get(id).is_none() {
            return Err(XousError::InvalidThread);
        }
        wait(&mut self.threads, who, ThreadState::Joining(awaited));
        Ok(CallerFate::Waits)
    }
}
