//! The threads of a state are there again.

ghost use Rattle.std.specs.Option.{option_map};
ghost use Rattle.std.specs.Prelude.{◌≡◌, ◌∷◌, ◌≤◌, IfOk, None, Some, length, if◌then◌else◌};
ghost use Rattle.xk_parts.specs.Shown.{state_of, thread_of};
ghost use Rattle.suspend_image.specs.Forms.{IsThreadRow};
ghost use Rattle.snapshot_rows.specs.Machines.{thread_at_id, thread_of as row_thread, thread_state as row_state};
ghost use Rattle.snapshot_rows.specs.Machines.{threads_of as state_threads};
ghost use Rattle.thread_table.specs.Shown.{process_count, threads_of};
ghost use Rattle.xk_base.specs.Tables.Circle.{same_thread};
ghost use Rattle.xk_base.specs.declared.ids.ThreadId.{ThreadId as Id};
ghost use Rattle.resume_path.specs.Resumable.{CanResume};
ghost use Rattle.xk_base.specs.declared.limits.TheConstants.{PROCESS_LIMIT, TID_LIMIT};

use snapshot_rows::{JOINING, READY, RECEIVING, WAITING};
use std::alloc::Global;
use suspend_image::{State, ThreadRow};
use thread_table::{Thread, ThreadState, Threads};
use xk_base::{NoMemory, Number, Pid, Regs, Serial, ThreadId, Tid};

// What a thread of the state is about.
fn thread_state(row: &ThreadRow) -> ThreadState
    requires tid { row.now.state ≡ JOINING → row.now.waits ≤ TID_LIMIT }
    ensures { state_of result ≡ row_state row.now.state row.now.waits }
{
    match row.state {
        READY => ThreadState::Ready,
        RECEIVING => ThreadState::Receiving(Serial(row.waits)),
        WAITING => ThreadState::Waiting(Number(row.waits)),
        JOINING => ThreadState::Joining(Tid(row.waits as u8)),
        _ => ThreadState::Idle,
    }
}

// Registers that hold these words from x1 on.
fn registers(words: &[u32; 31]) -> Regs
    ensures { result ≡ 0 ∷ words.now }
{
    let mut regs = Regs::new();
    'words: for k in 0..31u8 {
        regs.set(k + 1, words[k as usize]);
    }
    regs
}

// The thread of a row is started, where there is none of its id.
fn start_thread(threads: &mut Threads, row: &ThreadRow)
    requires few { process_count threads.old ≤ PROCESS_LIMIT }
    requires row { IsThreadRow (process_count threads.old) None row.now }
    requires free { threads_of threads.old (thread_at_id row.now.pid row.now.tid) ≡ None }
    ensures after { let id = thread_at_id row.now.pid row.now.tid in
        let old = threads_of threads.old in
        let new = threads_of threads.new in
        (q : Id) → option_map thread_of (new q) ≡ (if same_thread q id then Some (row_thread row.now) else option_map thread_of (old q)) }
    ensures count { process_count threads.new ≡ process_count threads.old }
{
    let id = ThreadId {
        pid: Pid(row.pid as u8),
        tid: Tid(row.tid as u8),
    };
    let thread = Thread {
        pc: row.pc,
        regs: registers(&row.regs),
        state: thread_state(row),
    };
    threads.start(id, thread);
}

// The threads of a state.
pub(crate) fn resume_threads(alloc: Global, state: &State) -> Result<Threads, NoMemory>
    requires resumable { CanResume state.now }
    ensures threads { IfOk result (λ t. (id : Id) → option_map thread_of (threads_of t id) ≡ state_threads state.now.threads id) }
    ensures count { IfOk result (λ t. process_count t ≡ state.now.n) }
{
    let mut threads = Threads::new(alloc, state.n)?;
    'rows: for row in state.threads.as_slice() {
        start_thread(&mut threads, row);
    }
    Ok(threads)
}
