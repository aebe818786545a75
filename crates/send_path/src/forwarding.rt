//! ForwardMessage.

ghost use Rattle.std.specs.Prelude.{◌≡◌, ◌+◌, ◌<◌, ◌≤◌, ◌^◌, ◌&&◌, length, true, is_some};
ghost use Rattle.machine_model.specs.Messaging.ForwardCalls.{with_first};
ghost use Rattle.machine_model.specs.Messaging.Messages.{is_lend as is_lend_kind};
ghost use Rattle.thread_table.specs.ThreadMap.{is_ready};
ghost use Rattle.thread_table.specs.Shown.{threads_of};
ghost use Rattle.vm_memory.specs.Memory.{IsUsable};
ghost use Rattle.syscall_codec.specs.CallNumbers.{forward_message as forward_number};
ghost use Rattle.syscall_codec.specs.CallWords.{call_number};
ghost use Rattle.send_path.specs.Forwarding.{forward_row};
ghost use Rattle.xk_parts.specs.Parts.{parts_of};
ghost use Rattle.xk_parts.specs.Sound.{AreSound};
ghost use Rattle.send_path.specs.Rows.{IsRow, table_row};
ghost use Rattle.send_path.specs.Keeping.{KeepsMemory};

use crate::carrying::arrive_and_answer;
use crate::holding::{held_by, is_lend, take};
use crate::seats::connected_server;
use msg_queue::{Held, Queues};
use process_table::Processes;
use server_table::Servers;
use syscall_codec::{Call, read_call};
use thread_table::Threads;
use vm_memory::Memory;
use xk_base::limits::PAGE_SIZE;
use xk_base::{Cid, Log, Message, Number, Place, ThreadId, Vpn, Window, XousError};
use xk_ports::SwapStore;

/// A thread passes a lend or mutable lend, which a server of its process holds, on to the server that a
/// connection leads to. The lender waits on: the message keeps its number, sender, kind, id, length,
/// offset and valid, and its pages go to the least free run of places there. It is refused as
/// `DoubleFree` where no such server holds a lend of that number that has a sender, as `ServerNotFound`
/// where the connection leads to no live server, as `InvalidSyscall` where it leads to the server that
/// holds the message, as `ServerQueueFull` where that server has as many messages as it can have, and as
/// `MemoryInUse` where no run is free; then nothing changes.
pub fn forward<W: SwapStore>(
    mem: &mut Memory<W>,
    threads: &mut Threads,
    procs: &Processes,
    servers: &Servers,
    queues: &mut Queues,
    log: &mut Log,
    who: ThreadId,
    words: [u32; 8],
) -> Result<(), XousError>
    requires ready { is_ready (threads_of threads.old who) ≡ true }
    requires room { length log.old.records + 2 ≤ log.old.room }
    requires served { call_number words ≡ forward_number }
    requires usable { IsUsable mem.old }
    requires sound { let old = record (parts_of mem.old threads.old servers.now queues.old log.old) { procs = Some procs.now } in
        AreSound W.SwapStore who old }
    ensures row { let old = record (parts_of mem.old threads.old servers.now queues.old log.old) { procs = Some procs.now } in
        let new = record old { mem = Some mem.new; threads = threads.new; queues = queues.new; log = log.new } in
        IsRow W.held (table_row words) who old new result }
    ensures sound { let new = record (parts_of mem.new threads.new servers.now queues.new log.new) { procs = Some procs.now } in
        AreSound W.SwapStore who new }
    ensures mem { KeepsMemory W.SwapStore mem.old mem.new }
{
    match read_call(words) {
        Ok(Call::ForwardMessage { token, cid }) => forward_message(
            mem,
            threads,
            procs,
            servers,
            queues,
            log,
            who,
            Number(token),
            Cid(cid),
        ),
        _ => unreachable!(),
    }
}

// The message of that number goes to the server that the connection leads to.
fn forward_message<W: SwapStore>(
    mem: &mut Memory<W>,
    threads: &mut Threads,
    procs: &Processes,
    servers: &Servers,
    queues: &mut Queues,
    log: &mut Log,
    who: ThreadId,
    number: Number,
    cid: Cid,
) -> Result<(), XousError>
    requires ready { is_ready (threads_of threads.old who) ≡ true }
    requires room { length log.old.records + 2 ≤ log.old.room }
    requires usable { IsUsable mem.old }
    requires sound { let old = record (parts_of mem.old threads.old servers.now queues.old log.old) { procs = Some procs.now } in
        AreSound W.SwapStore who old }
    ensures row { let old = record (parts_of mem.old threads.old servers.now queues.old log.old) { procs = Some procs.now } in
        let new = record old { mem = Some mem.new; threads = threads.new; queues = queues.new; log = log.new } in
        IsRow W.held (forward_row number cid.0) who old new result }
    ensures sound { let new = record (parts_of mem.new threads.new servers.now queues.new log.new) { procs = Some procs.now } in
        AreSound W.SwapStore who new }
    ensures mem { KeepsMemory W.SwapStore mem.old mem.new }
{
    let Some(from) = held_by(servers, queues, who.pid, number) else {
        return Err(XousError::DoubleFree);
    };
    if !is_passable(&from.message) {
        return Err(XousError::DoubleFree);
    }
    let Some(to) = connected_server(procs, servers, who.pid, cid) else {
        return Err(XousError::ServerNotFound);
    };
    if to.serial == from.serial {
        return Err(XousError::InvalidSyscall);
    }
    if queues.is_full(to.seat) {
        return Err(XousError::ServerQueueFull);
    }
    let Some(first) = mem.free_run(to.pid, Window::Message, from.message.count) else {
        return Err(XousError::MemoryInUse);
    };
    let place = Place {
        pid: to.pid,
        vpn: first,
    };
    let loan = match take(queues, from.seat, number) {
        Some(loan) => mem.pass(loan, place),
        None => unreachable!(),
    };
    let passed = Held {
        msg: moved_to(from.message, first),
        loan: Some(loan),
    };
    arrive_and_answer(threads, queues, log, who, None, to, passed);
    Ok(())
}

// Whether the message is a lend or mutable lend that has a sender.
fn is_passable(message: &Message) -> bool
    ensures { result ≡ is_lend_kind message.now.kind && is_some message.now.sender }
{
    is_lend(message.kind) && message.sender.is_some()
}

// The message with its pages at its new server: its address and its first page are new, and all else
// stays.
fn moved_to(mut message: Message, first: Vpn) -> Message
    requires { first.0 < 2 ^ 20 }
    ensures { result ≡ with_first first message }
{
    message.words[0] = PAGE_SIZE * first.0;
    message.first = first;
    message
}
