//! SendMessage and TrySendMessage.

ghost use Rattle.std.specs.Prelude.{◌≡◌, ◌+◌, ◌<◌, ◌≤◌, ◌==◌, ◌||◌, ◌&&◌, ◌^◌, length, true, IsFalse, if◌then◌else◌};
ghost use Rattle.machine_model.specs.Messaging.Messages.{carries_pages as has_pages, new_message};
ghost use Rattle.machine_model.specs.State.Machine.{Machine};
ghost use Rattle.thread_table.specs.ThreadMap.{is_ready};
ghost use Rattle.thread_table.specs.Shown.{threads_of};
ghost use Rattle.vm_memory.specs.Memory.{IsUsable};
ghost use Rattle.syscall_codec.specs.CallNumbers.{send_message, try_send_message};
ghost use Rattle.syscall_codec.specs.CallWords.{call_number, send_kind};
ghost use Rattle.xk_base.specs.Calls.Kinds.{is_answered as is_kind_answered, is_waiting_kind, kind_at};
ghost use Rattle.xk_parts.specs.Parts.{parts_of};
ghost use Rattle.xk_parts.specs.Sound.{AreSound};
ghost use Rattle.send_path.specs.Sending.{AreAsked, IsSendRow, asked_row, asked_words, send_row, IsAboveMessages};
ghost use Rattle.send_path.specs.Keeping.{KeepsMemory};

use crate::carrying::arrive_and_answer;
use crate::pages::{arrival, carries_pages, carry, page_of, test_pages};
use crate::seats::connected_server;
use msg_queue::{Held, Queues};
use process_table::Processes;
use server_table::Servers;
use syscall_codec::{Call, read_call};
use thread_table::Threads;
use vm_memory::Memory;
use xk_base::limits::PAGE_SIZE;
use xk_base::{Cid, Log, Message, MsgKind, Number, Place, ThreadId, Vpn, XousError};
use xk_ports::SwapStore;

/// What comes of a send.
#[derive(Clone, Copy, Debug, PartialEq, Eq)]
pub enum Sent {
    /// It is refused with this error, and nothing changed.
    Refused(XousError),
    /// All slots of the server are in use, and nothing changed.
    Full,
    /// The message was received or is queued.
    Accepted,
}

/// What a send asks for: a connection, the number of a kind, the sender's id for the message, and its
/// words.
#[derive(Clone, Copy, Debug, PartialEq, Eq)]
struct Asked {
    cid: Cid,
    kind: u32,
    id: u32,
    words: [u32; 4],
}

/// A thread sends a message to the live server that its connection leads to, by SendMessage or by
/// TrySendMessage. It is refused as `ServerNotFound` where there is no such server, as `InvalidSyscall`
/// where no kind has the number, as the tests of its pages answer, where it has pages, and as
/// `MemoryInUse` where no run is free for them at the receiver. The server is full where the tests
/// before that of the run pass, and all its slots are in use. A send that is refused, or finds the
/// server full, changes nothing.
///
/// An accepted message gets the number, and its pages are at the receiver at once. Of the threads that
/// are Receiving at the server the one of least tid gets it; where there is none it is queued. The
/// sender of a lend or a blocking scalar waits for its answer, and any other is answered. Tid 1 may not
/// wait: such a call of it is refused before.
pub fn send<W: SwapStore>(
    mem: &mut Memory<W>,
    threads: &mut Threads,
    procs: &Processes,
    servers: &Servers,
    queues: &mut Queues,
    log: &mut Log,
    who: ThreadId,
    number: Number,
    words: [u32; 8],
) -> Sent
    requires ready { is_ready (threads_of threads.old who) ≡ true }
    requires room { length log.old.records + 2 ≤ log.old.room }
    requires served { (call_number words == send_message || call_number words == try_send_message) ≡ true }
    requires usable { IsUsable mem.old }
    requires above { IsAboveMessages number servers.now queues.old }
    requires waits { IsFalse (is_waiting_kind (send_kind words) && (who.tid.0 == 1)) }
    requires sound { let old = record (parts_of mem.old threads.old servers.now queues.old log.old) { procs = Some procs.now } in
        AreSound W.SwapStore who old }
    ensures row { let old = record (parts_of mem.old threads.old servers.now queues.old log.old) { procs = Some procs.now } in
        let new = record old { mem = Some mem.new; threads = threads.new; queues = queues.new; log = log.new } in
        IsSendRow W.held (send_row number words) who old new result }
    ensures sound { let new = record (parts_of mem.new threads.new servers.now queues.new log.new) { procs = Some procs.now } in
        AreSound W.SwapStore who new }
    ensures mem { KeepsMemory W.SwapStore mem.old mem.new }
{
    let asked = asked_in(words);
    send_asked(
        mem, threads, procs, servers, queues, log, who, number, asked,
    )
}

// What the words of a send ask for.
fn asked_in(words: [u32; 8]) -> Asked
    requires { (call_number words == send_message || call_number words == try_send_message) ≡ true }
    ensures { AreAsked words result }
{
    match read_call(words) {
        Ok(
            Call::SendMessage {
                cid,
                kind,
                id,
                words,
            }
            | Call::TrySendMessage {
                cid,
                kind,
                id,
                words,
            },
        ) => Asked {
            cid: Cid(cid),
            kind,
            id,
            words,
        },
        _ => unreachable!(),
    }
}

// Sends what is asked for.
fn send_asked<W: SwapStore>(
    mem: &mut Memory<W>,
    threads: &mut Threads,
    procs: &Processes,
    servers: &Servers,
    queues: &mut Queues,
    log: &mut Log,
    who: ThreadId,
    number: Number,
    asked: Asked,
) -> Sent
    requires ready { is_ready (threads_of threads.old who) ≡ true }
    requires room { length log.old.records + 2 ≤ log.old.room }
    requires usable { IsUsable mem.old }
    requires above { IsAboveMessages number servers.now queues.old }
    requires waits { IsFalse (is_waiting_kind asked.kind && (who.tid.0 == 1)) }
    requires sound { let old = record (parts_of mem.old threads.old servers.now queues.old log.old) { procs = Some procs.now } in
        AreSound W.SwapStore who old }
    ensures row { let old = record (parts_of mem.old threads.old servers.now queues.old log.old) { procs = Some procs.now } in
        let new = record old { mem = Some mem.new; threads = threads.new; queues = queues.new; log = log.new } in
        IsSendRow W.held (asked_row number asked) who old new result }
    ensures sound { let new = record (parts_of mem.new threads.new servers.now queues.new log.new) { procs = Some procs.now } in
        AreSound W.SwapStore who new }
    ensures mem { KeepsMemory W.SwapStore mem.old mem.new }
{
    let Some(to) = connected_server(procs, servers, who.pid, asked.cid) else {
        return Sent::Refused(XousError::ServerNotFound);
    };
    let Some(kind) = kind_of(asked.kind) else {
        return Sent::Refused(XousError::InvalidSyscall);
    };
    let [address, length, _, _] = asked.words;
    match test_pages(mem, who.pid, kind, address, length) {
        Ok(()) => {}
        Err(error) => return Sent::Refused(error),
    }
    if queues.is_full(to.seat) {
        return Sent::Full;
    }
    let count = length / PAGE_SIZE;
    let Some(first) = arrival(mem, to.pid, kind, count) else {
        return Sent::Refused(XousError::MemoryInUse);
    };
    let place = Place {
        pid: to.pid,
        vpn: first,
    };
    let from = page_of(who.pid, address);
    let loan = carry(mem, kind, from, count, place, number);
    let msg = new_message(&asked, number, who, kind, first);
    let waits = awaited(kind, number);
    arrive_and_answer(threads, queues, log, who, waits, to, Held { msg, loan });
    Sent::Accepted
}

// The message that the sender waits to have answered, if one of the kind is answered.
fn awaited(kind: MsgKind, number: Number) -> Option<Number>
    ensures { result ≡ (if is_kind_answered kind then Some number else None) }
{
    if kind.is_answered() {
        Some(number)
    } else {
        None
    }
}

// The kind with that number.
fn kind_of(number: u32) -> Option<MsgKind>
    ensures { result ≡ kind_at number }
{
    match number {
        1 => Some(MsgKind::LendMut),
        2 => Some(MsgKind::Lend),
        3 => Some(MsgKind::Move),
        4 => Some(MsgKind::Scalar),
        5 => Some(MsgKind::BlockingScalar),
        _ => None,
    }
}

// The message of a send, whose first page at the receiver is this one.
fn new_message(asked: &Asked, number: Number, who: ThreadId, kind: MsgKind, first: Vpn) -> Message
    requires { has_pages kind ≡ true → first.0 < 2 ^ 20 }
    ensures { (m : Machine) → m.cursor ≡ who → m.next_number ≡ number.0 → result ≡ new_message m kind (asked_words asked.now) first }
{
    let sender = if kind.is_answered() { Some(who) } else { None };
    let [one, length, offset, valid] = asked.words;
    let (words, first, count) = if carries_pages(kind) {
        let address = PAGE_SIZE * first.0;
        ([address, length, offset, valid], first, length / PAGE_SIZE)
    } else {
        ([one, length, offset, valid], Vpn(0), 0)
    };
    Message {
        number,
        sender,
        kind,
        id: asked.id,
        words,
        first,
        count,
    }
}
