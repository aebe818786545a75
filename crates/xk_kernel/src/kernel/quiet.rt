//! Quiet steps of the cursor's thread, one after the other, without a look at any other thread.

ghost use Rattle.std.specs.Prelude.{ℕ, ◌≡◌, ◌+◌, ◌<◌, ◌≤◌, ◌%◌, [], true, false, is_some, IfOk, IsSome, OnErr, OnOk};
ghost use Rattle.machine_model.specs.Runs.Matched.{Matched};
ghost use Rattle.machine_model.specs.State.Order.{actor, ready_at};
ghost use Rattle.machine_model.specs.Stepping.Step.{step};
ghost use Rattle.machine_model.specs.Stepping.Timer.{is_due};
ghost use Rattle.xk_parts.specs.Shown.{thread_of};
ghost use Rattle.thread_table.specs.States.{is_ready_state};
ghost use Rattle.thread_table.specs.declared.thread.Thread.{Thread as TableThread};
ghost use Rattle.vm_memory.specs.Bytes.{MeansBytes, none_out};
ghost use Rattle.vm_memory.specs.Memory.{IsUsable as IsMemoryUsable, has_failed, store_of};
ghost use Rattle.vm_memory.specs.Sound.{IsSound as IsMemorySound};
ghost use Rattle.vm_memory.specs.Tie.{IsTied};
ghost use Rattle.vm_memory.specs.Using.Known.{Remembers};
ghost use Rattle.vm_memory.specs.Using.UserView.{KeepsRest};
ghost use Rattle.xk_base.specs.Outside.{Rose};
ghost use Rattle.xk_kernel.specs.Knowing.{KnowsBytes, PutsNoneOut};
ghost use Rattle.xk_kernel.specs.Moments.{StoodQuietly};
ghost use Rattle.xk_kernel.specs.Quiet.{RunsQuietly, in_hand};
ghost use Rattle.xk_kernel.specs.QuietOver.{CameByAll, Lent, PutsThread, RunsOver, StepsOver, Taken};
ghost use Rattle.xk_kernel.specs.Sound.{IsSound, IsUsable, IsWhole, Keeps};
ghost use Rattle.xk_kernel.specs.State.{machine_of};
ghost use Rattle.xk_kernel.specs.Stepping.{last_of};
ghost use Rattle.xk_base.specs.declared.limits.TheConstants.{STEP_LIMIT};

use crate::kernel::stepping::reservation;
use crate::kernel::{Kernel, SwapFault};
use rv32_atomics::run_or_leave;
use rv32_hart::Ran;
use thread_table::Thread;
use vm_memory::{KnownPages, KnownUser};
use xk_base::ThreadId;
use xk_ports::SwapStore;

impl<W: SwapStore> Kernel<W> {
    /// Does the next steps while they are quiet, at most so many, and answers how many: a quiet step is an
    /// instruction by which the cursor's thread goes on, with no effect but on itself and its memory. It
    /// leaves no record, ends no turn and needs nothing of the timer's page: a load or a store there isn't
    /// quiet, nor is a step at whose end the timer is due. No step searches anything or takes memory. Only
    /// `close` may follow a `SwapFault`.
    pub fn run_quiet(&mut self, most: u32) -> Result<u32, SwapFault>
        requires sound { IsSound W.SwapStore self.old }
        requires usable { IsUsable self.old }
        requires few { (machine_of W.held self.old).steps + most ≤ STEP_LIMIT }
        ensures sound { IsSound W.SwapStore self.new }
        ensures usable { OnOk result (IsUsable self.new) }
        ensures failed { OnErr result (has_failed self.new.mem ≡ true) }
        // Whatever the store does, so many steps are counted, and there are none where no thread is Ready.
        ensures most { IfOk result (λ done. done ≤ most) }
        ensures counts { IfOk result (λ done. self.new.steps ≡ self.old.steps + done) }
        ensures there { IfOk result (λ done. 0 < done → is_some (actor (machine_of W.held self.old)) ≡ true) }
        ensures idle { OnErr result (is_some (actor (machine_of W.held self.old)) ≡ true) }
        // Quiet steps leave no record. Where there is none, the records of the step or event before stay.
        ensures last { IfOk result (λ done. 0 < done → last_of self.new ≡ []) }
        ensures stays { IfOk result (λ done. done ≡ 0 → last_of self.new ≡ last_of self.old) }
        // The steps, where bytes are known.
        ensures runs { KnowsBytes W.SwapStore self.old self.new
            → IfOk result (λ done. RunsQuietly most done (machine_of W.held self.old) (machine_of W.held self.new)) }
        // For each state that they came to there was a kernel.
        ensures stood { KnowsBytes W.SwapStore self.old self.new
            → IfOk result (λ done. StoodQuietly W.SwapStore self.old done) }
        // A swap fault comes only where the store's count rose and a page is out. Only there is one out afterwards.
        ensures cause { OnErr result (Rose (W.faults (store_of self.old.mem)) (W.faults (store_of self.new.mem))) }
        ensures out { OnErr result (none_out self.old.mem ≡ false) }
        ensures none { PutsNoneOut self.old self.new }
        ensures tie { IsTied W.held self.new.mem }
        ensures keeps { Keeps W.SwapStore self.old self.new }
    {
        let who = self.cursor;
        if !self.is_ready_at(who) {
            return Ok(0);
        }
        let until = self.steps_before_due(most);
        let mut thread = *self.thread(who);
        let mut reserved = self.reserved_by(who);
        let done = self.quiet_steps(&mut thread, &mut reserved, until)?;
        if done == 0 {
            return Ok(0);
        }
        self.take_back(who, thread, reserved, done);
        Ok(done)
    }

    // How many of the next steps, of at most so many, end before one at whose end the timer is due.
    fn steps_before_due(&self, most: u32) -> u32
        requires few { self.now.steps + most ≤ STEP_LIMIT }
        ensures most { result ≤ most }
        ensures rests { (j : ℕ) → j < result → is_due self.now.timer (self.now.steps + j + 1) ≡ false }
        ensures due { result < most → is_due self.now.timer (self.now.steps + result + 1) ≡ true }
    {
        let Some(compare) = self.timer.compare() else {
            return most;
        };
        if compare <= self.steps || compare - self.steps > most {
            return most;
        }
        compare - self.steps - 1
    }

    // The cursor's thread, which is in hand and Ready, does its next steps while they are quiet, at most so
    // many, before the timer is due, and answers how many. The steps aren't counted yet.
    fn quiet_steps(
        &mut self,
        thread: &mut Thread,
        reserved: &mut Option<u32>,
        most: u32,
    ) -> Result<u32, SwapFault>
        requires whole { IsWhole W.SwapStore self.old }
        requires usable { IsUsable self.old }
        requires matched { Matched (machine_of W.held self.old) }
        requires rests { (j : ℕ) → j < most → is_due self.old.timer (self.old.steps + j + 1) ≡ false }
        requires ready { is_ready_state thread.old.state ≡ true }
        requires aligned { thread.old.pc % 4 ≡ 0 }
        ensures same { self.new ≡ record self.old { mem = self.new.mem } }
        ensures rest { KeepsRest W.SwapStore self.old.cursor.pid self.old.mem self.new.mem }
        ensures state { thread.new.state ≡ thread.old.state }
        ensures aligned { thread.new.pc % 4 ≡ 0 }
        ensures usable { OnOk result (IsUsable self.new) }
        ensures failed { OnErr result (has_failed self.new.mem ≡ true) }
        ensures cause { OnErr result (Rose (W.faults (store_of self.old.mem)) (W.faults (store_of self.new.mem))) }
        ensures out { OnErr result (none_out self.old.mem ≡ false) }
        ensures most { IfOk result (λ done. done ≤ most) }
        ensures runs { let who = self.old.cursor in
            let old = in_hand who (thread_of thread.old) reserved.old self.old.steps (machine_of W.held self.old) in
            MeansBytes W.SwapStore self.old.mem → IfOk result (λ done. RunsQuietly most done old
            (in_hand who (thread_of thread.new) reserved.new (self.old.steps + done) (machine_of W.held self.new))) }
        ensures came { let taken : Taken W = record { mem = self.old.mem; thread = thread.old; reserved = reserved.old } in
            IfOk result (λ done. CameByAll W.SwapStore self.old.cursor taken done) }
    {
        let who = self.cursor;
        let mut user = KnownUser {
            mem: &mut self.mem,
            pid: who.pid,
            known: KnownPages::new(),
        };
        let done = quiet_row(who, thread, reserved, &mut user, most);
        let KnownUser {
            mem: _,
            pid: _,
            known: _,
        } = user;
        done
    }

    // The cursor's thread goes back to its table, after so many steps without a record.
    fn take_back(&mut self, who: ThreadId, thread: Thread, reserved: Option<u32>, done: u32)
        requires there { IsSome ((machine_of W.held self.old).threads who) }
        requires few { self.old.steps + done ≤ STEP_LIMIT }
        ensures machine { machine_of W.held self.new
            ≡ in_hand who (thread_of thread) reserved (self.old.steps + done) (machine_of W.held self.old) }
        ensures whole { IsWhole W.SwapStore self.old → IsWhole W.SwapStore self.new }
        ensures mem { self.new.mem ≡ self.old.mem }
        ensures log { self.new.log ≡ record self.old.log { step = self.old.steps + done; records = [] } }
        // So would any other thread be.
        ensures puts { (other : TableThread) → PutsThread self.old.threads who other }
    {
        *self.threads.thread_mut(who) = thread;
        self.steps += done;
        self.reserved = reservation(who, reserved);
        self.log.clear(self.steps);
    }
}

// A thread that is in hand and Ready does its next steps over its memory while they are quiet, at most so
// many, before the timer is due, and answers how many. The memory is lent for all of them at once.
fn quiet_row<W: SwapStore>(
    who: ThreadId,
    thread: &mut Thread,
    reserved: &mut Option<u32>,
    user: &mut KnownUser<'_, W>,
    most: u32,
) -> Result<u32, SwapFault>
    requires pid { user.old.pid ≡ who.pid }
    requires sound { IsMemorySound W.slot_count user.old.mem.now }
    requires usable { IsMemoryUsable user.old.mem.now }
    requires known { Remembers user.old.mem.now user.old.pid user.old.known }
    requires ready { is_ready_state thread.old.state ≡ true }
    requires aligned { thread.old.pc % 4 ≡ 0 }
    ensures lent { user.new.mem.ghost_name ≡ user.old.mem.ghost_name }
    ensures rest { KeepsRest W.SwapStore user.old.pid user.old.mem.now user.new.mem.now }
    ensures state { thread.new.state ≡ thread.old.state }
    ensures aligned { thread.new.pc % 4 ≡ 0 }
    ensures usable { OnOk result (IsMemoryUsable user.new.mem.now) }
    ensures failed { OnErr result (has_failed user.new.mem.now ≡ true) }
    ensures cause { OnErr result (Rose (W.faults (store_of user.old.mem.now)) (W.faults (store_of user.new.mem.now))) }
    ensures out { OnErr result (none_out user.old.mem.now ≡ false) }
    ensures most { IfOk result (λ done. done ≤ most) }
    ensures runs { let old : Lent W = record { mem = user.old.mem.now; thread = thread_of thread.old; reserved = reserved.old } in
        let new : Lent W = record { mem = user.new.mem.now; thread = thread_of thread.new; reserved = reserved.new } in
        IfOk result (λ done. RunsOver W.SwapStore who old new most done) }
    ensures came { let taken : Taken W = record { mem = user.old.mem.now; thread = thread.old; reserved = reserved.old } in
        IfOk result (λ done. CameByAll W.SwapStore who taken done) }
{
    'steps: for done in 0..most {
        if !quiet_step(who, thread, reserved, user)? {
            return Ok(done);
        }
    }
    Ok(most)
}

// A thread that is in hand and Ready does its next step over its memory if that is quiet, and answers
// whether it is; else all is as before, but that pages may have come in and gone out. The timer isn't due.
#[inline(always)]
fn quiet_step<W: SwapStore>(
    who: ThreadId,
    thread: &mut Thread,
    reserved: &mut Option<u32>,
    user: &mut KnownUser<'_, W>,
) -> Result<bool, SwapFault>
    requires pid { user.old.pid ≡ who.pid }
    requires sound { IsMemorySound W.slot_count user.old.mem.now }
    requires usable { IsMemoryUsable user.old.mem.now }
    requires known { Remembers user.old.mem.now user.old.pid user.old.known }
    requires ready { is_ready_state thread.old.state ≡ true }
    requires aligned { thread.old.pc % 4 ≡ 0 }
    ensures lent { user.new.mem.ghost_name ≡ user.old.mem.ghost_name }
    ensures pid { user.new.pid ≡ user.old.pid }
    ensures rest { KeepsRest W.SwapStore user.old.pid user.old.mem.now user.new.mem.now }
    ensures known { Remembers user.new.mem.now user.new.pid user.new.known }
    ensures state { thread.new.state ≡ thread.old.state }
    ensures aligned { thread.new.pc % 4 ≡ 0 }
    ensures usable { OnOk result (IsMemoryUsable user.new.mem.now) }
    ensures failed { OnErr result (has_failed user.new.mem.now ≡ true) }
    ensures cause { OnErr result (Rose (W.faults (store_of user.old.mem.now)) (W.faults (store_of user.new.mem.now))) }
    ensures out { OnErr result (none_out user.old.mem.now ≡ false) }
    ensures does { let old : Lent W = record { mem = user.old.mem.now; thread = thread_of thread.old; reserved = reserved.old } in
        let new : Lent W = record { mem = user.new.mem.now; thread = thread_of thread.new; reserved = reserved.new } in
        IfOk result (λ quiet. StepsOver W.SwapStore who old new quiet) }
{
    match run_or_leave(&mut thread.regs, thread.pc, reserved, user) {
        Ran::Next(next) => {
            thread.pc = next;
            Ok(true)
        }
        // `step` does it. It also ends the thread or the handler: no page is there, so that the fetch traps.
        Ran::Ecall | Ran::Trap { .. } | Ran::Device { .. } => Ok(false),
        Ran::Failed => Err(SwapFault),
    }
}
