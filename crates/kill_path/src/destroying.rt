//! DestroyServer.

ghost use Rattle.std.specs.Prelude.{◌≡◌, ◌+◌, ◌≤◌, length, true, IsSome, Some};
ghost use Rattle.std.specs.Option.{option_map};
ghost use Rattle.xk_parts.specs.Parts.{parts_of};
ghost use Rattle.xk_parts.specs.Sound.{AreSound};
ghost use Rattle.send_path.specs.Keeping.{KeepsMemory};
ghost use Rattle.server_table.specs.ServersOf.{servers_of};
ghost use Rattle.thread_table.specs.ThreadMap.{is_ready};
ghost use Rattle.thread_table.specs.Shown.{process_count, threads_of};
ghost use Rattle.xk_base.specs.Tables.Circle.{thread_ids};
ghost use Rattle.kill_path.specs.Rows.{DoesRow, destroy_row};

use crate::answered::Answered;
use crate::closing::{close_server, seat_of};
use crate::telling::{note_receiving, tell};
use msg_queue::Queues;
use server_table::Servers;
use thread_table::Threads;
use vm_memory::Memory;
use xk_base::{Log, Pid, Serial, ThreadId};
use xk_parts::pass;
use xk_ports::SwapStore;

/// The process of a live server.
fn owner_of(servers: &Servers, serial: Serial) -> Pid
    requires { IsSome ((servers_of servers.now).live serial.0) }
    ensures { option_map (λ v. v.pid) ((servers_of servers.now).live serial.0) ≡ Some result }
{
    match servers.owner(serial) {
        Some(pid) => pid,
        None => unreachable!(),
    }
}

/// A thread ends a live server: the loans of its messages end, whoever waits for one of them or is Receiving
/// there is answered `ServerNotFound`, and the thread itself is answered that it was served and goes past its
/// call. Their records stand in ascending order of thread. It always succeeds.
pub fn destroy<W: SwapStore>(
    mem: &mut Memory<W>,
    threads: &mut Threads,
    servers: &mut Servers,
    queues: &mut Queues,
    log: &mut Log,
    who: ThreadId,
    s: Serial,
)
    requires live { IsSome ((servers_of servers.old).live s.0) }
    requires ready { is_ready (threads_of threads.old who) ≡ true }
    requires room { length log.old.records + thread_ids (process_count threads.old) ≤ log.old.room }
    requires sound { AreSound W.SwapStore who (parts_of mem.old threads.old servers.old queues.old log.old) }
    ensures row { let old = parts_of mem.old threads.old servers.old queues.old log.old in
        let new = parts_of mem.new threads.new servers.new queues.new log.new in
        DoesRow W.held (destroy_row s) who old new }
    ensures sound { AreSound W.SwapStore who (parts_of mem.new threads.new servers.new queues.new log.new) }
    ensures mem { KeepsMemory W.SwapStore mem.old mem.new }
{
    let mut noted_ids = Answered::new();
    noted_ids.note(who);
    let pid = owner_of(servers, s);
    note_receiving(threads, pid, s, &mut noted_ids);
    let seat = seat_of(servers, s);
    close_server(mem, servers, queues, &mut noted_ids, s, seat);
    pass(threads, who);
    tell(threads, log, &noted_ids, Some(who));
}
