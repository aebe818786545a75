//! Processes die, and threads end.

ghost use Rattle.std.specs.Option.{option_map_or};
ghost use Rattle.std.specs.Prelude.{◌≡◌, ◌+◌, ◌<◌, ◌≤◌, true, false, length, IsTrue};
ghost use Rattle.machine_model.specs.State.Changes.{Served, answering, call_settled, settled};
ghost use Rattle.machine_model.specs.Ending.Ends.{death, is_joining, joiners_answered, thread_ended};
ghost use Rattle.machine_model.specs.Runs.Matched.{Matched, is_living};
ghost use Rattle.machine_model.specs.Stepping.Step.{after};
ghost use Rattle.vm_memory.specs.Memory.{processes, store_of};
ghost use Rattle.xk_base.specs.Tables.Circle.{is_pid, thread_ids};
ghost use Rattle.xk_base.specs.declared.limits.TheConstants.{PROCESS_LIMIT};
ghost use Rattle.xk_base.specs.declared.records.What.TheVariants.{End};
ghost use Rattle.xk_kernel.specs.Calling.{IsCaller};
ghost use Rattle.xk_kernel.specs.Sound.{IsUsable, IsWhole};
ghost use Rattle.xk_kernel.specs.State.{machine_of};
ghost use Rattle.xk_kernel.specs.Telling.{StaysUsable, Tells};

use crate::kernel::Kernel;
use crate::kernel::ringing::end_claim;
use kill_path::kill;
use syscall_codec::{Reply, reply_words};
use thread_table::ThreadState;
use xk_base::limits::TID_LIMIT;
use xk_base::{Pid, ThreadId, Tid, What};
use xk_ports::SwapStore;

impl<W: SwapStore> Kernel<W> {
    // The living process dies, which is told last. Who waits at its servers is answered before. The timer
    // is disarmed where the process had claimed its interrupt.
    pub(super) fn kill(&mut self, pid: Pid)
        requires whole { IsWhole W.SwapStore self.old }
        requires usable { IsUsable self.old }
        requires matched { Matched (machine_of W.held self.old) }
        requires alive { is_living (machine_of W.held self.old) pid ≡ true }
        requires room { length self.old.log.records + thread_ids PROCESS_LIMIT + 1 ≤ self.old.log.room }
        ensures tells { Tells W.held self.old self.new (settled (death pid (machine_of W.held self.old))) }
        ensures store { store_of self.new.mem ≡ store_of self.old.mem }
        ensures stays { StaysUsable W.SwapStore self.old self.new }
    {
        let timed = self.has_timer(pid);
        end_claim(&mut self.timer, timed);
        kill(
            &mut self.mem,
            &mut self.threads,
            &mut self.procs,
            &mut self.servers,
            &mut self.queues,
            &mut self.claims,
            &mut self.log,
            pid,
        );
        self.log.push(What::Gone(pid));
    }

    // The process of the thread whose turn it is dies of this, which is told first.
    pub(super) fn die(&mut self, cause: What)
        requires calls { IsCaller W.SwapStore self.old }
        requires room { length self.old.log.records + thread_ids PROCESS_LIMIT + 2 ≤ self.old.log.room }
        ensures tells { Tells W.held self.old self.new (after cause (settled (death self.old.cursor.pid (machine_of W.held self.old)))) }
        ensures stays { StaysUsable W.SwapStore self.old self.new }
    {
        self.log.push(cause);
        self.kill(self.cursor.pid);
    }

    // TerminateProcess: the process of the thread whose turn it is dies.
    pub(super) fn terminate(&mut self)
        requires calls { IsCaller W.SwapStore self.old }
        requires room { length self.old.log.records + thread_ids PROCESS_LIMIT + 1 ≤ self.old.log.room }
        ensures tells { let m = machine_of W.held self.old in
            Tells W.held self.old self.new (call_settled m (Served (death self.old.cursor.pid m))) }
        ensures stays { StaysUsable W.SwapStore self.old self.new }
    {
        self.kill(self.cursor.pid);
    }

    // Each thread that joined the one of that id, which has ended, is answered the a0 of its end.
    fn answer_joiners(&mut self, who: ThreadId, a0: u32)
        requires whole { IsWhole W.SwapStore self.old }
        requires pid { IsTrue (is_pid (processes self.old.mem) who.pid.0) }
        requires room { length self.old.log.records + TID_LIMIT ≤ self.old.log.room }
        ensures whole { IsWhole W.SwapStore self.new }
        ensures tells { let m = machine_of W.held self.old in
            Tells W.held self.old self.new (settled (answering (joiners_answered m who a0) m)) }
        ensures mem { self.new.mem ≡ self.old.mem }
        ensures few { length self.new.log.records ≤ length self.old.log.records + TID_LIMIT }
    {
        for k in 0..TID_LIMIT {
            let id = ThreadId {
                pid: who.pid,
                tid: Tid(k + 1),
            };
            if self.is_joining(id, who.tid) {
                self.answer(id, reply_words(&Reply::Scalar1(a0)));
            }
        }
    }

    // Whether the thread of that id waits for the end of the one of that tid in its process.
    fn is_joining(&self, id: ThreadId, tid: Tid) -> bool
        ensures { result ≡ option_map_or (λ t. is_joining tid t.state) ((machine_of W.held self.now).threads id) false }
    {
        match self.threads.get(id) {
            Some(thread) => match thread.state {
                ThreadState::Joining(awaited) => awaited == tid,
                _ => false,
            },
            None => false,
        }
    }

    // The thread whose turn it is ends, with this in a0: who joined it is answered, and the process
    // dies with its last thread above tid 1.
    pub(super) fn end_thread(&mut self, a0: u32)
        requires calls { IsCaller W.SwapStore self.old }
        requires above { 1 < self.old.cursor.tid.0 }
        requires room { length self.old.log.records + thread_ids PROCESS_LIMIT + 2 ≤ self.old.log.room }
        ensures tells { Tells W.held self.old self.new
            (after (End self.old.cursor) (settled (thread_ended self.old.cursor a0 (machine_of W.held self.old)))) }
        ensures stays { StaysUsable W.SwapStore self.old self.new }
    {
        let who = self.cursor;
        self.log.push(What::End(who));
        if self.threads.live(who.pid) > 1 {
            self.threads.end(who);
            self.answer_joiners(who, a0);
        } else {
            self.kill(who.pid);
        }
    }
}
