//! A process dies.

ghost use Rattle.std.specs.Prelude.{◌≡◌, ◌+◌, ◌≤◌, length, true, Some};
ghost use Rattle.process_table.specs.ProcessMap.{is_alive};
ghost use Rattle.process_table.specs.Shown.{processes_of};
ghost use Rattle.xk_base.specs.declared.ids.ThreadId.{ThreadId};
ghost use Rattle.xk_parts.specs.Parts.{parts_of};
ghost use Rattle.xk_parts.specs.Sound.{AreSound};
ghost use Rattle.send_path.specs.Keeping.{KeepsMemory};
ghost use Rattle.thread_table.specs.Shown.{process_count};
ghost use Rattle.vm_memory.specs.Memory.{IsUsable};
ghost use Rattle.xk_base.specs.Tables.Circle.{thread_ids};
ghost use Rattle.kill_path.specs.Dying.{Dies};

use crate::answered::Answered;
use crate::closing::close_servers;
use crate::leaving::leave_servers;
use crate::telling::tell;
use irq_claims::Claims;
use msg_queue::Queues;
use process_table::Processes;
use server_table::Servers;
use thread_table::Threads;
use vm_memory::Memory;
use xk_base::{Log, Pid};
use xk_ports::SwapStore;

/// A living process dies. Its servers close: the loans of their messages end, and whoever waits for one of
/// them is answered `ServerNotFound`, its own threads too; the records of these answers stand in ascending
/// order of thread. The messages that its threads have queued at the servers of others are taken out, and
/// their loans end; those that others hold have no sender any more and keep their places, and their pages
/// become orphans. Then its pages, threads, connections, claims and pending interrupts go, and it is dead.
/// It always succeeds. The record that the process is gone is the caller's.
pub fn kill<W: SwapStore>(
    mem: &mut Memory<W>,
    threads: &mut Threads,
    procs: &mut Processes,
    servers: &mut Servers,
    queues: &mut Queues,
    claims: &mut Claims,
    log: &mut Log,
    pid: Pid,
)
    requires alive { is_alive (processes_of procs.old pid.0) ≡ true }
    requires usable { IsUsable mem.old }
    requires room { length log.old.records + thread_ids (process_count threads.old) ≤ log.old.room }
    requires sound { let before = parts_of mem.old threads.old servers.old queues.old log.old in
        let old = record before { procs = Some procs.old; claims = Some claims.old } in
        (who : ThreadId) × AreSound W.SwapStore who old }
    ensures death { let before = parts_of mem.old threads.old servers.old queues.old log.old in
        let old = record before { procs = Some procs.old; claims = Some claims.old } in
        let after = parts_of mem.new threads.new servers.new queues.new log.new in
        let new = record after { procs = Some procs.new; claims = Some claims.new } in
        Dies W.held pid old new }
    ensures sound { let after = parts_of mem.new threads.new servers.new queues.new log.new in
        let new = record after { procs = Some procs.new; claims = Some claims.new } in
        (who : ThreadId) × AreSound W.SwapStore who new }
    ensures mem { KeepsMemory W.SwapStore mem.old mem.new }
{
    let mut noted_ids = Answered::new();
    close_servers(mem, servers, queues, &mut noted_ids, pid);
    leave_servers(mem, servers, queues, pid);
    tell(threads, log, &noted_ids, None);
    threads.end_process(pid);
    mem.forget_process(pid);
    claims.end(pid);
    procs.end(pid);
}
