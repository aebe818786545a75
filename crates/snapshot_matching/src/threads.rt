//! Whether the machine can have the threads of a state, told from the rows.

ghost use Rattle.std.specs.Prelude.{◌≡◌, ◌↔◌, ◌==◌, ◌&&◌, ◌||◌, ◌≤◌, not, nat_lt, nat_le, length, IsTrue};
ghost use Rattle.std.specs.List.{list_any, list_all};
ghost use Rattle.machine_model.specs.Runs.Matched.{AreReceiversMatched, AreJoinersMatched, AreThreadsMatched};
ghost use Rattle.snapshot_rows.specs.Order.{thread_key, server_key, Ascend, AscendInTwo};
ghost use Rattle.snapshot_rows.specs.Machines.{threads_of, servers_of, processes_of};
ghost use Rattle.snapshot_matching.specs.ThreadParts.{has_threads as has_threads_of, is_served as is_served_of, AreLivingServed};
ghost use Rattle.snapshot_matching.specs.ThreadParts.{is_awaited as is_awaited_of, awaits_server as awaits_server_of};
ghost use Rattle.snapshot_matching.specs.ThreadParts.{joins_another as joins_another_of};
ghost use Rattle.snapshot_matching.specs.ThreadParts.{is_thread_living as is_thread_living_of, is_thread_right as is_thread_right_of};
ghost use Rattle.snapshot_matching.specs.ThreadParts.{AreThreadsRight};
ghost use Rattle.xk_base.specs.declared.limits.TheConstants.{PROCESS_LIMIT};

use snapshot_rows::{IDLE, JOINING, ProcRow, READY, RECEIVING, ServerRow, ThreadRow, is_alive};
use xk_base::limits::TID_LIMIT;

/// Whether it is the server that a thread waits at: of its process, with an empty queue.
fn is_awaited(thread: &ThreadRow, server: &ServerRow) -> bool
    ensures { result ≡ is_awaited_of thread.now server.now }
{
    server.serial == thread.waits && server.pid == thread.pid && server.queued.as_slice().is_empty()
}

/// Whether it is one of these, which stand in order of their serials: it is found by halving.
fn is_one_awaited(servers: &[ServerRow], thread: &ThreadRow) -> bool
    requires { Ascend server_key servers.now }
    ensures { result ≡ list_any (is_awaited_of thread.now) servers.now }
{
    match servers.binary_search_by_key(&thread.waits, |server| server.serial) {
        Ok(i) => is_awaited(thread, &servers[i]),
        Err(_) => false,
    }
}

/// Whether a thread that is Receiving waits at such a server.
fn awaits_server(servers: &[ServerRow], thread: &ThreadRow) -> bool
    requires { Ascend server_key servers.now }
    ensures { result ≡ awaits_server_of servers.now thread.now }
{
    thread.state != RECEIVING || is_one_awaited(servers, thread)
}

/// Whether each does.
fn all_await_servers(servers: &[ServerRow], threads: &[ThreadRow]) -> bool
    requires { Ascend server_key servers.now }
    ensures { result ≡ list_all (awaits_server_of servers.now) threads.now }
{
    threads.iter().all(|thread| awaits_server(servers, thread))
}

/// Part 4: a thread that is Receiving belongs to the process of that live server, whose queue is empty.
pub fn are_receivers_matched(servers: &[ServerRow], threads: &[ThreadRow]) -> bool
    requires servers { Ascend server_key servers.now }
    requires threads { AscendInTwo thread_key threads.now }
    ensures { IsTrue result ↔ AreReceiversMatched (threads_of threads.now) (servers_of servers.now) }
{
    all_await_servers(servers, threads)
}

/// Whether there is a thread of this id.
fn is_thread(threads: &[ThreadRow], pid: u32, tid: u32) -> bool
    ensures { result ≡ list_any (λ t. t.pid == pid && t.tid == tid) threads.now }
{
    threads
        .iter()
        .any(|thread| thread.pid == pid && thread.tid == tid)
}

/// Whether a thread that is Joining waits for another thread of its process, above tid 1.
fn joins_another(threads: &[ThreadRow], thread: &ThreadRow) -> bool
    ensures { result ≡ joins_another_of threads.now thread.now }
{
    thread.state != JOINING
        || (thread.waits != thread.tid
            && 2 <= thread.waits
            && is_thread(threads, thread.pid, thread.waits))
}

/// Whether each does.
fn all_join_others(threads: &[ThreadRow]) -> bool
    ensures { result ≡ list_all (joins_another_of threads.now) threads.now }
{
    threads.iter().all(|thread| joins_another(threads, thread))
}

/// Part 5: a thread that is Joining waits for another thread of its process, above tid 1.
pub fn are_joiners_matched(threads: &[ThreadRow]) -> bool
    requires { AscendInTwo thread_key threads.now }
    ensures { IsTrue result ↔ AreJoinersMatched (threads_of threads.now) }
{
    all_join_others(threads)
}

fn is_thread_living(n: u32, procs: &[ProcRow], thread: &ThreadRow) -> bool
    ensures { result ≡ is_thread_living_of n procs.now thread.now }
{
    2 <= thread.pid
        && (thread.pid as u64) < n as u64 + 2
        && 1 <= thread.tid
        && thread.tid <= TID_LIMIT as u32
        && is_alive(procs, thread.pid)
}

/// Whether each thread is one of a living process among `n`, with a number within the limit.
pub fn all_threads_living(n: u32, procs: &[ProcRow], threads: &[ThreadRow]) -> bool
    ensures { result ≡ list_all (is_thread_living_of n procs.now) threads.now }
{
    threads
        .iter()
        .all(|thread| is_thread_living(n, procs, thread))
}

fn is_thread_right(procs: &[ProcRow], thread: &ThreadRow) -> bool
    ensures { result ≡ is_thread_right_of procs.now thread.now }
{
    thread.pc % 4 == 0 && (thread.state < IDLE || (thread.tid == 1 && is_alive(procs, thread.pid)))
}

fn all_threads_right(procs: &[ProcRow], threads: &[ThreadRow]) -> bool
    ensures { result ≡ list_all (is_thread_right_of procs.now) threads.now }
{
    threads.iter().all(|thread| is_thread_right(procs, thread))
}

/// Part 6, of the threads, each for itself: every pc is the address of an instruction, and only tid 1
/// of a living process is Idle.
pub fn are_threads_right(procs: &[ProcRow], threads: &[ThreadRow]) -> bool
    requires { AscendInTwo thread_key threads.now }
    ensures { IsTrue result ↔ AreThreadsRight (processes_of procs.now) (threads_of threads.now) }
{
    all_threads_right(procs, threads)
}

/// Whether a process has a tid 1 that is Ready or Idle, and a thread above.
fn has_threads(threads: &[ThreadRow], pid: u32) -> bool
    ensures { result ≡ has_threads_of threads.now pid }
{
    has_handler_thread(threads, pid) && has_thread_above(threads, pid)
}

fn has_handler_thread(threads: &[ThreadRow], pid: u32) -> bool
    ensures { result ≡ list_any (λ t. (t.pid == pid && t.tid == 1) && (t.state == READY || not (nat_lt t.state IDLE))) threads.now }
{
    threads.iter().any(|t| t.pid == pid && t.tid == 1 && (t.state == READY || IDLE <= t.state))
}

fn has_thread_above(threads: &[ThreadRow], pid: u32) -> bool
    ensures { result ≡ list_any (λ t. t.pid == pid && nat_le 2 t.tid) threads.now }
{
    threads.iter().any(|t| t.pid == pid && 2 <= t.tid)
}

/// Whether a process, if it is alive, has those threads.
fn is_served(procs: &[ProcRow], threads: &[ThreadRow], pid: u32) -> bool
    ensures { result ≡ is_served_of procs.now threads.now pid }
{
    !is_alive(procs, pid) || has_threads(threads, pid)
}

/// Part 6, of the processes: a living one has a tid 1 that is Ready or Idle, and a thread above.
pub fn are_living_served(procs: &[ProcRow], threads: &[ThreadRow]) -> bool
    requires few { length procs.now ≤ PROCESS_LIMIT }
    requires threads { AscendInTwo thread_key threads.now }
    ensures { IsTrue result ↔ AreLivingServed (processes_of procs.now) (threads_of threads.now) }
{
    for i in 0..procs.len() {
        if !is_served(procs, threads, i as u32 + 2) {
            return false;
        }
    }
    true
}

/// Part 6, of the processes and threads: a living process has a tid 1 that is Ready or Idle, and a
/// thread above, no other thread is Idle, and every pc is the address of an instruction.
pub fn are_threads_matched(procs: &[ProcRow], threads: &[ThreadRow]) -> bool
    requires few { length procs.now ≤ PROCESS_LIMIT }
    requires threads { AscendInTwo thread_key threads.now }
    ensures { IsTrue result ↔ AreThreadsMatched (processes_of procs.now) (threads_of threads.now) }
{
    are_threads_right(procs, threads) && are_living_served(procs, threads)
}
