//! Servers close: their messages end.

ghost use Rattle.std.specs.Prelude.{◌≡◌, ◌==◌, ◌<◌, length, slice_get, IfSome, IsSome, true};
ghost use Rattle.ledger_model.specs.Loans.{loans};
ghost use Rattle.ledger_model.specs.Steps.{end_loan};
ghost use Rattle.machine_model.specs.Messaging.LoanSets.{end_loans};
ghost use Rattle.msg_queue.specs.Seats.{changed_at, seat_of as seat_in, without_held_at};
ghost use Rattle.machine_model.specs.State.Servers.{is_server_of};
ghost use Rattle.xk_parts.specs.Shown.{servers_shown};
ghost use Rattle.xk_parts.specs.Seats.{IsSeatOf, messages_at};
ghost use Rattle.server_table.specs.ServersOf.{servers_of};
ghost use Rattle.vm_memory.specs.Memory.{ledger};
ghost use Rattle.vm_memory.specs.Sound.{IsSound as IsMemorySound};
ghost use Rattle.xk_base.specs.Tables.Circle.{is_thread_id};
ghost use Rattle.xk_base.specs.declared.limits.TheConstants.{PROCESS_LIMIT, SERVER_LIMIT};
ghost use Rattle.kill_path.specs.Ending.{AreEndable, IsEndable, emptied, is_number_in, with_sender, with_senders, without_first};
ghost use Rattle.kill_path.specs.Closing.{AreClosed, closable};
ghost use Rattle.kill_path.specs.Keeping.{Stays};
ghost use Rattle.kill_path.specs.Noted.{noted};
ghost use Rattle.xk_parts.specs.Sound.{AreOpen};

use crate::answered::Answered;
use msg_queue::{Held, Queues};
use server_table::Servers;
use vm_memory::Memory;
use xk_base::{Pid, Serial, ThreadId};
use xk_ports::SwapStore;

/// The message ends, and with it its loan, where it has one. What is left is its sender.
pub(crate) fn spend<W: SwapStore>(mem: &mut Memory<W>, ended: Held) -> Option<ThreadId>
    requires sound { IsMemorySound W.slot_count mem.old }
    requires loan { IsEndable (loans (ledger W.held mem.old)) ended }
    ensures sender { result ≡ ended.msg.sender }
    ensures ledger { ledger W.held mem.new ≡ end_loan ended.msg.number (ledger W.held mem.old) }
    ensures stays { Stays W.SwapStore mem.old mem.new }
{
    let Held { msg, loan } = ended;
    match loan {
        Some(loan) => {
            mem.end_loan(loan);
            msg.sender
        }
        None => msg.sender,
    }
}

/// The sender of a message, where it has one, is to be answered.
fn note_sender(answered: &mut Answered, sender: Option<ThreadId>)
    requires { IfSome sender (λ id. is_thread_id PROCESS_LIMIT id ≡ true) }
    ensures { noted answered.new ≡ with_sender sender (noted answered.old) }
{
    match sender {
        Some(sender) => answered.note(sender),
        None => {}
    }
}

/// The message ends, and its sender is to be answered.
pub(crate) fn end_message<W: SwapStore>(mem: &mut Memory<W>, answered: &mut Answered, ended: Held)
    requires sound { IsMemorySound W.slot_count mem.old }
    requires loan { IsEndable (loans (ledger W.held mem.old)) ended }
    requires sender { IfSome ended.msg.sender (λ id. is_thread_id PROCESS_LIMIT id ≡ true) }
    ensures ledger { ledger W.held mem.new ≡ end_loan ended.msg.number (ledger W.held mem.old) }
    ensures noted { noted answered.new ≡ with_sender ended.msg.sender (noted answered.old) }
    ensures stays { Stays W.SwapStore mem.old mem.new }
{
    let sender = spend(mem, ended);
    note_sender(answered, sender);
}

/// Takes the first of the held messages of a seat out.
fn take_first_held(queues: &mut Queues, seat: u8) -> Option<Held>
    requires { seat < SERVER_LIMIT }
    ensures message { result ≡ slice_get (seat_in queues.old seat).held 0 }
    ensures rest { queues.new ≡ changed_at seat (without_held_at 0) queues.old }
{
    let number = queues.held_at(seat, 0)?.number;
    queues.take_held(seat, number)
}

/// Takes the first message of a seat out: the oldest queued, or else the first of the held.
fn take_first(queues: &mut Queues, seat: u8) -> Option<Held>
    requires seat { seat < SERVER_LIMIT }
    requires seats { length queues.old ≡ SERVER_LIMIT }
    ensures message { result ≡ slice_get (messages_at (seat_in queues.old seat)) 0 }
    ensures rest { queues.new ≡ changed_at seat without_first queues.old }
{
    match queues.take_oldest(seat) {
        Some(oldest) => Some(oldest),
        None => take_first_held(queues, seat),
    }
}

/// All messages of a seat end, and their senders are to be answered.
fn end_seat<W: SwapStore>(
    mem: &mut Memory<W>,
    queues: &mut Queues,
    answered: &mut Answered,
    seat: u8,
)
    requires sound { IsMemorySound W.slot_count mem.old }
    requires seat { seat < SERVER_LIMIT }
    requires seats { length queues.old ≡ SERVER_LIMIT }
    requires messages { AreEndable (loans (ledger W.held mem.old)) (messages_at (seat_in queues.old seat)) }
    ensures ledger { ledger W.held mem.new ≡ end_loans (is_number_in (messages_at (seat_in queues.old seat))) (ledger W.held mem.old) }
    ensures noted { noted answered.new ≡ with_senders (messages_at (seat_in queues.old seat)) (noted answered.old) }
    ensures queues { queues.new ≡ changed_at seat emptied queues.old }
    ensures stays { Stays W.SwapStore mem.old mem.new }
{
    while let Some(ended) = take_first(queues, seat) {
        end_message(mem, answered, ended);
    }
}

/// The live server at a seat closes: its messages end, and it goes.
pub(crate) fn close_server<W: SwapStore>(
    mem: &mut Memory<W>,
    servers: &mut Servers,
    queues: &mut Queues,
    answered: &mut Answered,
    serial: Serial,
    seat: u8,
)
    requires sound { IsMemorySound W.slot_count mem.old }
    requires seat { IsSeatOf (servers_of servers.old) serial.0 seat }
    requires messages { AreOpen (loans (ledger W.held mem.old)) servers.old queues.old }
    ensures closed { let old = closable (ledger W.held mem.old) servers.old queues.old (noted answered.old) in
        let new = closable (ledger W.held mem.new) servers.new queues.new (noted answered.new) in
        AreClosed (λ n. n == serial.0) old new }
    ensures messages { AreOpen (loans (ledger W.held mem.new)) servers.new queues.new }
    ensures stays { Stays W.SwapStore mem.old mem.new }
{
    end_seat(mem, queues, answered, seat);
    servers.remove(serial);
}

/// The seat of a live server.
pub(crate) fn seat_of(servers: &Servers, serial: Serial) -> u8
    requires { IsSome ((servers_of servers.now).live serial.0) }
    ensures { IsSeatOf (servers_of servers.now) serial.0 result }
{
    match servers.seat(serial) {
        Some(seat) => seat,
        None => unreachable!(),
    }
}

/// All servers of the process close.
pub(crate) fn close_servers<W: SwapStore>(
    mem: &mut Memory<W>,
    servers: &mut Servers,
    queues: &mut Queues,
    answered: &mut Answered,
    pid: Pid,
)
    requires sound { IsMemorySound W.slot_count mem.old }
    requires messages { AreOpen (loans (ledger W.held mem.old)) servers.old queues.old }
    ensures closed { let old = closable (ledger W.held mem.old) servers.old queues.old (noted answered.old) in
        let new = closable (ledger W.held mem.new) servers.new queues.new (noted answered.new) in
        AreClosed (λ n. is_server_of pid (servers_shown servers.old queues.old n)) old new }
    ensures messages { AreOpen (loans (ledger W.held mem.new)) servers.new queues.new }
    ensures stays { Stays W.SwapStore mem.old mem.new }
{
    while let Some(serial) = servers.any_of(pid) {
        let seat = seat_of(servers, serial);
        close_server(mem, servers, queues, answered, serial, seat);
    }
}
