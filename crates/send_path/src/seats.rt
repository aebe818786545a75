//! The seat of a server, and what a message does there.

ghost use Rattle.std.specs.Prelude.{◌≡◌, ◌<◌, if◌then◌else◌, Option, IfSome};
ghost use Rattle.std.specs.Option.{option_map};
ghost use Rattle.msg_queue.specs.Seats.{changed_at, seat_of, used_of, with_held};
ghost use Rattle.server_table.specs.ServersOf.{servers_of};
ghost use Rattle.xk_base.specs.declared.limits.TheConstants.{SERVER_LIMIT, MESSAGE_LIMIT};
ghost use Rattle.xk_base.specs.Calls.Kinds.{is_answered as is_kind_answered};
ghost use Rattle.process_table.specs.ProcessMap.{connections_of};
ghost use Rattle.process_table.specs.Shown.{process_count, processes_of};
ghost use Rattle.xk_base.specs.Tables.Circle.{IsPid};
ghost use Rattle.send_path.specs.Arrivals.{IsReachedIf, with_arrived};
ghost use Rattle.xk_parts.specs.Seats.{HasLoanIfLend, IsSeatOf, own_serial};

use msg_queue::{Held, Queues};
use process_table::Processes;
use server_table::Servers;
use xk_base::{Cid, Pid, Serial, ThreadId};

/// A live server that a connection leads to, with its process and its seat.
#[derive(Clone, Copy, Debug, PartialEq, Eq)]
pub(crate) struct Reached {
    pub serial: Serial,
    pub pid: Pid,
    pub seat: u8,
}

// The live server that the connection of the process leads to.
pub(crate) fn connected_server(
    procs: &Processes,
    servers: &Servers,
    pid: Pid,
    cid: Cid,
) -> Option<Reached>
    requires { IsPid (process_count procs.now) pid.0 }
    ensures { IsReachedIf (connections_of (processes_of procs.now pid.0)) cid.0 (servers_of servers.now) result }
{
    let serial = procs.server_of(pid, cid)?;
    let pid = servers.owner(serial)?;
    let seat = servers.seat(serial)?;
    Some(Reached { serial, pid, seat })
}

// A thread received the message, which was taken out or is new: one that is to be answered is held,
// and any other leaves its slot.
pub(crate) fn keep_received(queues: &mut Queues, seat: u8, received: Held)
    requires seat { seat < SERVER_LIMIT }
    requires room { used_of (seat_of queues.old seat) < MESSAGE_LIMIT }
    requires loan { HasLoanIfLend received }
    ensures { queues.new ≡ (if is_kind_answered received.msg.kind then changed_at seat (with_held received) queues.old else queues.old) }
{
    if received.msg.kind.is_answered() {
        queues.hold(seat, received);
    } else {
        let Held { msg: _, loan } = received;
        match loan {
            None => {}
            Some(_) => unreachable!(),
        }
    }
}

// A message arrives at the seat: a thread received it, or else it is the newest queued.
pub(crate) fn arrive(queues: &mut Queues, seat: u8, message: Held, receiver: Option<ThreadId>)
    requires seat { seat < SERVER_LIMIT }
    requires room { used_of (seat_of queues.old seat) < MESSAGE_LIMIT }
    requires loan { HasLoanIfLend message }
    ensures { queues.new ≡ changed_at seat (with_arrived receiver message) queues.old }
{
    match receiver {
        Some(_) => keep_received(queues, seat, message),
        None => queues.put(seat, message),
    }
}
