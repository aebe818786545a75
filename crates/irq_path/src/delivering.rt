//! A pending interrupt is delivered.

ghost use Rattle.std.specs.Prelude.{◌≡◌, ◌<◌, length};
ghost use Rattle.irq_path.specs.Delivering.{Delivers, taken};
ghost use Rattle.machine_model.specs.State.Machine.{Machine};
ghost use Rattle.machine_model.specs.Stepping.Interrupts.{is_free_for_interrupt};
ghost use Rattle.thread_table.specs.Shown.{process_count};
ghost use Rattle.xk_parts.specs.Shown.{threads_shown};

use crate::handlers::{handler_id, handler_thread};
use irq_claims::Claims;
use thread_table::{ThreadState, Threads};
use xk_base::{Log, Pid, What};

/// Whether the interrupt thread of the process is there and runs no handler.
fn is_free_for_interrupt(threads: &Threads, pid: Pid) -> bool
    ensures { (m : Machine) → result ≡ is_free_for_interrupt (record m { threads = threads_shown threads.now }) pid }
{
    match threads.get(handler_id(pid)) {
        Some(thread) => matches!(thread.state, ThreadState::Idle),
        None => false,
    }
}

/// Delivery is tried: where the interrupt thread of the process runs no handler and the process has a
/// pending number, the handler of the lowest starts, of which a record tells. Whether one does is the
/// answer. All other threads and claims stay.
pub fn deliver(threads: &mut Threads, claims: &mut Claims, log: &mut Log, pid: Pid) -> bool
    requires room { length log.old.records < log.old.room }
    ensures delivers { let old = taken threads.old claims.old log.old in
        let new = taken threads.new claims.new log.new in
        Delivers pid old new result }
    ensures count { process_count threads.new ≡ process_count threads.old }
{
    if !is_free_for_interrupt(threads, pid) {
        return false;
    }
    let Some(due) = claims.take_lowest(pid) else {
        return false;
    };
    threads.set(handler_id(pid), handler_thread(due));
    log.push(What::Irq(pid, due.k));
    true
}
