//! The messages that the servers of a process hold.

ghost use Rattle.std.specs.Prelude.{◌≡◌, ◌<◌, IsSome, Some};
ghost use Rattle.machine_model.specs.Messaging.Messages.{is_blocking_scalar, is_lend as is_lend_kind};
ghost use Rattle.machine_model.specs.Messaging.ReturnCalls.{is_its_range as is_range_of};
ghost use Rattle.msg_queue.specs.Seats.{changed_at, of_number, seat_of, without_held};
ghost use Rattle.msg_queue.specs.declared.held.Held.{Held as HeldMessage};
ghost use Rattle.server_table.specs.ServersOf.{servers_of};
ghost use Rattle.xk_base.specs.declared.limits.TheConstants.{SERVER_LIMIT};
ghost use Rattle.send_path.specs.Seats.{IsHolder, IsHolderAt};

use loan_flags::Loan;
use msg_queue::{Held, Queues};
use server_table::Servers;
use xk_base::limits::{PAGE_SIZE, SERVER_LIMIT};
use xk_base::{Message, MsgKind, Number, Pid, Serial};

/// A message that a server holds, and where.
#[derive(Clone, Copy, Debug, PartialEq, Eq)]
pub(crate) struct HeldAt {
    pub serial: Serial,
    pub seat: u8,
    pub message: Message,
}

// The message of that number that a server of the process holds.
pub(crate) fn held_by(
    servers: &Servers,
    queues: &Queues,
    pid: Pid,
    number: Number,
) -> Option<HeldAt>
    ensures { IsHolder pid number (servers_of servers.now) queues.now result }
{
    for seat in 0..SERVER_LIMIT as u8 {
        if let Some(found) = held_at(servers, queues, pid, number, seat) {
            return Some(found);
        }
    }
    None
}

// .. where it stands at this seat.
fn held_at(servers: &Servers, queues: &Queues, pid: Pid, number: Number, seat: u8) -> Option<HeldAt>
    requires { seat < SERVER_LIMIT }
    ensures { IsHolderAt pid number (servers_of servers.now) queues.now seat result }
{
    let Some(server) = servers.at_seat(seat) else {
        return None;
    };
    if server.pid != pid {
        return None;
    }
    let Some(message) = queues.held(seat, number) else {
        return None;
    };
    Some(HeldAt {
        serial: server.serial,
        seat,
        message: *message,
    })
}

// Takes the held message of that number out of a seat, where it is, and gives its loan.
pub(crate) fn take(queues: &mut Queues, seat: u8, number: Number) -> Option<Loan>
    requires seat { seat < SERVER_LIMIT }
    requires there { IsSome (of_number number (seat_of queues.old seat).held) }
    ensures loan { (h : HeldMessage) → of_number number (seat_of queues.old seat).held ≡ Some h → result ≡ h.loan }
    ensures rest { queues.new ≡ changed_at seat (without_held number) queues.old }
{
    match queues.take_held(seat, number) {
        Some(Held { msg: _, loan }) => loan,
        None => unreachable!(),
    }
}

// Whether a message of the kind waits for one value or two.
pub(crate) fn is_blocking(kind: MsgKind) -> bool
    ensures { result ≡ is_blocking_scalar kind }
{
    match kind {
        MsgKind::BlockingScalar => true,
        MsgKind::LendMut | MsgKind::Lend | MsgKind::Move | MsgKind::Scalar => false,
    }
}

// Whether the pages of a message of the kind are on loan.
pub(crate) fn is_lend(kind: MsgKind) -> bool
    ensures { result ≡ is_lend_kind kind }
{
    match kind {
        MsgKind::LendMut | MsgKind::Lend => true,
        MsgKind::Move | MsgKind::Scalar | MsgKind::BlockingScalar => false,
    }
}

// Whether the range is that of the message's pages at its server.
pub(crate) fn is_its_range(address: u32, size: u32, message: &Message) -> bool
    ensures { result ≡ is_range_of address size message.now }
{
    let first = PAGE_SIZE as u64 * message.first.0 as u64;
    let bytes = PAGE_SIZE as u64 * message.count as u64;
    address as u64 == first && size as u64 == bytes
}
