//! Whether threads wait for the messages that they sent, told from the rows: who waits is listed as
//! messages say it and as threads do, and the two lists are compared.

ghost use Rattle.std.specs.Prelude.{◌≡◌, ◌≤◌, ◌++◌, [], ◌∷◌, ℕ, IsTrue, OnOk, IfOk};
ghost use Rattle.std.specs.List.{flat_map, count_by};
ghost use Rattle.snapshot_matching.specs.WaitParts.{message_wait, waits_of, thread_wait, is_wait_at, HaveSameWaits, AreAlikeWaits};

use snapshot_rows::{MessageRow, ServerRow, ThreadRow, WAITING};
use std::alloc::Global;
use xk_base::NoMemory;

/// A thread, and the number of the message whose answer it waits for.
#[derive(Clone, Copy, Debug, PartialEq, Eq)]
pub struct Wait {
    pub pid: u32,
    pub tid: u32,
    pub number: u32,
}

fn push(waits: &mut Vec<Wait>, wait: Wait) -> Result<(), NoMemory>
    ensures { OnOk result (waits.new.items ≡ waits.old.items ++ wait ∷ []) }
{
    match waits.push(wait) {
        Ok(()) => Ok(()),
        Err(_) => Err(NoMemory),
    }
}

/// Adds the sender of a message, where it has one.
fn add_message(waits: &mut Vec<Wait>, message: &MessageRow) -> Result<(), NoMemory>
    ensures { OnOk result (waits.new.items ≡ waits.old.items ++ message_wait message.now) }
{
    if message.sender_pid == 0 {
        return Ok(());
    }
    push(
        waits,
        Wait {
            pid: message.sender_pid,
            tid: message.sender_tid,
            number: message.number,
        },
    )
}

fn add_messages(waits: &mut Vec<Wait>, messages: &[MessageRow]) -> Result<(), NoMemory>
    ensures { OnOk result (waits.new.items ≡ waits.old.items ++ flat_map message_wait messages.now) }
{
    for message in messages {
        add_message(waits, message)?;
    }
    Ok(())
}

fn add_server(waits: &mut Vec<Wait>, server: &ServerRow) -> Result<(), NoMemory>
    ensures { OnOk result (waits.new.items ≡ waits.old.items ++ waits_of server.now) }
{
    add_messages(waits, server.queued.as_slice())?;
    add_messages(waits, server.held.as_slice())
}

/// Who waits, as messages say it.
pub fn said_waits(alloc: Global, servers: &[ServerRow]) -> Result<Vec<Wait>, NoMemory>
    ensures { IfOk result (λ waits. waits.items ≡ flat_map waits_of servers.now) }
{
    let mut waits = Vec::new(alloc);
    for server in servers {
        add_server(&mut waits, server)?;
    }
    Ok(waits)
}

/// Adds a thread, where it is Waiting.
fn add_thread(waits: &mut Vec<Wait>, thread: &ThreadRow) -> Result<(), NoMemory>
    ensures { OnOk result (waits.new.items ≡ waits.old.items ++ thread_wait thread.now) }
{
    if thread.state != WAITING {
        return Ok(());
    }
    push(
        waits,
        Wait {
            pid: thread.pid,
            tid: thread.tid,
            number: thread.waits,
        },
    )
}

/// Who waits, as threads say it.
pub fn kept_waits(alloc: Global, threads: &[ThreadRow]) -> Result<Vec<Wait>, NoMemory>
    ensures { IfOk result (λ waits. waits.items ≡ flat_map thread_wait threads.now) }
{
    let mut waits = Vec::new(alloc);
    for thread in threads {
        add_thread(&mut waits, thread)?;
    }
    Ok(waits)
}

/// Whether both lists say the same: they are put in order of their threads, and compared.
pub fn are_same(said: Vec<Wait>, kept: Vec<Wait>) -> bool
    requires { (k : ℕ × ℕ) → count_by (is_wait_at k) kept.items ≤ 1 }
    ensures alike { IsTrue result → AreAlikeWaits said.items kept.items }
    ensures told { HaveSameWaits said.items kept.items → IsTrue result }
{
    let mut said_in_order = said;
    said_in_order.sort_unstable_by_key(|wait| (wait.pid, wait.tid));
    let mut kept_in_order = kept;
    kept_in_order.sort_unstable_by_key(|wait| (wait.pid, wait.tid));
    said_in_order == kept_in_order
}
