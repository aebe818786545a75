//! The threads of a state are written.

ghost use Rattle.std.specs.Prelude.{◌≡◌, ◌≤◌, ◌+◌, ◌*◌, drop, length};
ghost use Rattle.xk_parts.specs.Shown.{state_of, thread_of, threads_shown};
ghost use Rattle.suspend_image.specs.Spelling.{rows_bytes, thread_bytes};
ghost use Rattle.thread_table.specs.Shown.{process_count};
ghost use Rattle.xk_base.specs.Tables.Circle.{id_at, thread_ids};
ghost use Rattle.xk_base.specs.declared.limits.TheConstants.{PROCESS_LIMIT};
ghost use Rattle.save_path.specs.Fitting.{AreRegisters, EachBelow, IsThreadFit};
ghost use Rattle.save_path.specs.Rows.{rows_below, thread_at};
ghost use Rattle.suspend_image.specs.Reading.{greatest};
ghost use Rattle.suspend_image.specs.SavedRows.{state_number, state_waits, thread_row};
ghost use Rattle.save_path.specs.Written.{Appends, Fits};

use snapshot_rows::{IDLE, JOINING, READY, RECEIVING, WAITING};
use suspend_image::{Sheet, ThreadRow, write_thread};
use thread_table::{Thread, ThreadState, Threads, id_at};
use xk_base::limits::TID_LIMIT;
use xk_base::{Regs, ThreadId};

/// How many threads a process may have.
const TIDS: u32 = TID_LIMIT as u32;

// The number of a thread's state.
fn state_number(state: ThreadState) -> u32
    ensures { result ≡ state_number (state_of state) }
{
    match state {
        ThreadState::Ready => READY,
        ThreadState::Receiving(_) => RECEIVING,
        ThreadState::Waiting(_) => WAITING,
        ThreadState::Joining(_) => JOINING,
        ThreadState::Idle => IDLE,
    }
}

// What it waits for.
fn state_waits(state: ThreadState) -> u32
    ensures is { result ≡ state_waits (state_of state) }
    ensures fit { state_waits (state_of state) ≤ greatest }
{
    match state {
        ThreadState::Ready | ThreadState::Idle => 0,
        ThreadState::Receiving(serial) => serial.0,
        ThreadState::Waiting(number) => number.0,
        ThreadState::Joining(tid) => u32::from(tid.0),
    }
}

// The registers x1 to x31.
fn registers(regs: &Regs) -> [u32; 31]
    ensures are { result ≡ drop 1 regs.now }
    ensures len { length result ≡ 31 }
    ensures fit { AreRegisters regs.now }
{
    let mut words = [0; 31];
    for k in 0..31 {
        words[k as usize] = regs.get(k + 1);
    }
    words
}

// The row of a thread.
fn thread_row(id: ThreadId, thread: Thread) -> ThreadRow
    ensures row { result ≡ thread_row id (thread_of thread) }
    ensures len { length result.regs ≡ 31 }
    ensures fit { IsThreadFit (thread_of thread) }
{
    ThreadRow {
        pid: u32::from(id.pid.0),
        tid: u32::from(id.tid.0),
        pc: thread.pc,
        state: state_number(thread.state),
        waits: state_waits(thread.state),
        regs: registers(&thread.regs),
    }
}

/// Appends the number of threads, and the threads in order of pid and tid.
pub(crate) fn write_threads(sheet: &mut Sheet, threads: &Threads, procs: u32)
    requires many { procs ≤ PROCESS_LIMIT }
    requires room { Fits sheet.old (4 + 144 * thread_ids procs) }
    ensures rows { let rows = rows_below (thread_ids procs) (thread_at (threads_shown threads.now)) in
        Appends sheet.old sheet.new (rows_bytes thread_bytes rows) (4 + 144 * thread_ids procs) }
    ensures fit { EachBelow (thread_ids procs) (λ k. threads_shown threads.now (id_at k)) IsThreadFit }
{
    let at = sheet.as_slice().len() as u32;
    sheet.push_word(0);
    let mut many = 0;
    for k in 0..procs * TIDS {
        let id = id_at(k as usize);
        if let Some(thread) = threads.get(id) {
            write_thread(sheet, &thread_row(id, *thread));
            many += 1;
        }
    }
    sheet.set_word(at, many);
}
