//! Whether messages and the threads that wait for their answers match, told from the rows.

ghost use Rattle.std.specs.Prelude.{◌≡◌, ◌↔◌, IsTrue, IfOk};
ghost use Rattle.std.specs.List.{list_all};
ghost use Rattle.machine_model.specs.Runs.Matched.{AreSendersMatched};
ghost use Rattle.snapshot_rows.specs.Order.{thread_key, server_key, Ascend, AscendInTwo};
ghost use Rattle.snapshot_rows.specs.Machines.{threads_of, servers_of};
ghost use Rattle.snapshot_matching.specs.ServerParts.{all_messages, is_to_answer as is_to_answer_of, is_queueable as is_queueable_of};
ghost use Rattle.snapshot_matching.specs.ServerParts.{is_sized as is_sized_of, are_messages_right as are_messages_right_of};

use crate::lends::{LEND, LEND_MUT};
use crate::waits::{are_same, kept_waits, said_waits};
use snapshot_rows::{MessageRow, ServerRow, ThreadRow};
use std::alloc::Global;
use xk_base::NoMemory;

/// The numbers of the other kinds of messages that a clause names.
const MOVE: u32 = 3;

const BLOCKING_SCALAR: u32 = 5;

/// Whether a message is to be answered.
fn is_to_answer(message: &MessageRow) -> bool
    ensures { result ≡ is_to_answer_of message.now }
{
    message.kind == LEND_MUT || message.kind == LEND || message.kind == BLOCKING_SCALAR
}

/// Whether it has a sender exactly where it is to be answered.
fn is_queueable(message: &MessageRow) -> bool
    ensures { result ≡ is_queueable_of message.now }
{
    if message.sender_pid == 0 {
        !is_to_answer(message)
    } else {
        is_to_answer(message)
    }
}

/// Whether it carries pages, or has no first page and no count.
fn is_sized(message: &MessageRow) -> bool
    ensures { result ≡ is_sized_of message.now }
{
    message.kind == LEND_MUT
        || message.kind == LEND
        || message.kind == MOVE
        || (message.first == 0 && message.count == 0)
}

fn all_queueable(messages: &[MessageRow]) -> bool
    ensures { result ≡ list_all is_queueable_of messages.now }
{
    messages.iter().all(|message| is_queueable(message))
}

fn all_to_answer(messages: &[MessageRow]) -> bool
    ensures { result ≡ list_all is_to_answer_of messages.now }
{
    messages.iter().all(|message| is_to_answer(message))
}

fn all_sized(messages: &[MessageRow]) -> bool
    ensures { result ≡ list_all is_sized_of messages.now }
{
    messages.iter().all(|message| is_sized(message))
}

fn are_sized(server: &ServerRow) -> bool
    ensures { result ≡ all_messages is_sized_of server.now }
{
    all_sized(server.queued.as_slice()) && all_sized(server.held.as_slice())
}

fn are_messages_right(server: &ServerRow) -> bool
    ensures { result ≡ are_messages_right_of server.now }
{
    all_queueable(server.queued.as_slice())
        && all_to_answer(server.held.as_slice())
        && are_sized(server)
}

fn all_messages_right(servers: &[ServerRow]) -> bool
    ensures { result ≡ list_all are_messages_right_of servers.now }
{
    servers.iter().all(|server| are_messages_right(server))
}

/// Part 3: a sender is a thread that is Waiting for its message, each thread that is Waiting is the
/// sender of exactly one, and messages are queued, held and sized as their kinds say.
pub fn are_senders_matched(
    alloc: Global,
    threads: &[ThreadRow],
    servers: &[ServerRow],
) -> Result<bool, NoMemory>
    requires threads { AscendInTwo thread_key threads.now }
    requires servers { Ascend server_key servers.now }
    ensures { IfOk result (λ told. IsTrue told ↔ AreSendersMatched (threads_of threads.now) (servers_of servers.now)) }
{
    if !all_messages_right(servers) {
        return Ok(false);
    }
    let said = said_waits(alloc, servers)?;
    let kept = kept_waits(alloc, threads)?;
    Ok(are_same(said, kept))
}
