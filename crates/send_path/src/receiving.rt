//! ReceiveMessage and TryReceiveMessage.

ghost use Rattle.std.specs.Prelude.{◌≡◌, ◌+◌, ◌≤◌, ◌==◌, ◌&&◌, length, true, IsFalse};
ghost use Rattle.ledger_model.specs.Loans.{Loans};
ghost use Rattle.thread_table.specs.ThreadMap.{is_ready};
ghost use Rattle.thread_table.specs.Shown.{threads_of};
ghost use Rattle.xk_parts.specs.Parts.{no_store, tables_of};
ghost use Rattle.send_path.specs.Rows.{IsRow, receive_row};
ghost use Rattle.xk_parts.specs.Sound.{AreLoansSound, AreSound};
ghost use Rattle.server_table.specs.ServersOf.{servers_of};

use crate::seats::keep_received;
use crate::threads::answer_caller;
use msg_queue::Queues;
use server_table::Servers;
use syscall_codec::{Reply, reply_words};
use thread_table::{ThreadState, Threads};
use xk_base::{Log, Sid, ThreadId, XousError};
use xk_parts::{Seated, own_server, pass, wait};

/// A thread asks for a message of the server with that identifier, which is one of its process: it
/// gets the oldest queued message. Where none is queued it waits for one, if it wants to wait, and
/// else is answered that there is none. It is refused as `ServerNotFound` where there is no such
/// server, and then nothing changes. Tid 1 may not wait: such a call of it is refused before.
pub fn receive(
    threads: &mut Threads,
    servers: &Servers,
    queues: &mut Queues,
    log: &mut Log,
    who: ThreadId,
    sid: Sid,
    wait_for_one: bool,
) -> Result<(), XousError>
    requires ready { is_ready (threads_of threads.old who) ≡ true }
    requires room { length log.old.records + 2 ≤ log.old.room }
    requires waits { IsFalse (wait_for_one && (who.tid.0 == 1)) }
    requires sound { AreSound no_store who (tables_of threads.old servers.now queues.old log.old) }
    ensures row { let old = tables_of threads.old servers.now queues.old log.old in
        let new = record old { threads = threads.new; queues = queues.new; log = log.new } in
        IsRow no_store.held (receive_row sid wait_for_one) who old new result }
    ensures sound { let new = tables_of threads.new servers.now queues.new log.new in
        AreSound no_store who new }
    ensures loans { let live = servers_of servers.now in
        (all : Loans) → AreLoansSound all live queues.old → AreLoansSound all live queues.new }
{
    let Some(Seated { serial, seat }) = own_server(servers, who.pid, sid) else {
        return Err(XousError::ServerNotFound);
    };
    if let Some(message) = queues.take_oldest(seat) {
        let words = reply_words(&Reply::Got(message.msg));
        keep_received(queues, seat, message);
        answer_caller(threads, log, who, words);
    } else if wait_for_one {
        wait(threads, who, ThreadState::Receiving(serial));
        pass(threads, who);
    } else {
        answer_caller(threads, log, who, reply_words(&Reply::Plain));
    }
    Ok(())
}
