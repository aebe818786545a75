//! The servers of a state, with their messages.

ghost use Rattle.std.specs.Prelude.{◌≡◌, None};
ghost use Rattle.suspend_image.specs.Reading.{Gives, items_at, rows_at};
ghost use Rattle.suspend_image.specs.Rows.{sender_pid_at, message_at, server_at};
ghost use Rattle.snapshot_rows.specs.Order.{server_key};

use crate::reading::broken::Broken;
use crate::reading::words::{GREATEST, after, four, word, word_if, word_in};
use snapshot_rows::{MessageRow, ServerRow};
use std::alloc::Global;
use xk_base::Row;
use xk_base::limits::TID_LIMIT;

/// The last kind of message that carries pages.
const LAST_WITH_PAGES: u32 = 3;

/// The pid of a sender, or 0 where there is none.
#[tactic(auto, unfolding(crate::specs::Rows::sender_pid_at))]
fn front_sender_pid(n: u32, bytes: &[u8]) -> Result<(u32, &[u8]), Broken>
    ensures { Gives (λ x. (x.0, x.1.now)) result (sender_pid_at n bytes.now) }
{
    let (pid, rest) = word(bytes)?;
    if pid == 1 || pid as u64 > n as u64 + 1 {
        return Err(Broken::Form(bytes.len()));
    }
    Ok((pid, rest))
}

#[tactic(auto, unfolding(crate::specs::Rows::message_at))]
fn front_message(n: u32, bytes: &[u8]) -> Result<(MessageRow, &[u8]), Broken>
    ensures { Gives (λ x. (x.0, x.1.now)) result (message_at n bytes.now) }
{
    let (number, rest) = word(bytes)?;
    let (sender_pid, rest) = front_sender_pid(n, rest)?;
    let (sender_tid, rest) = word_if(sender_pid != 0, 1, TID_LIMIT as u64, rest)?;
    let (kind, rest) = word_in(1, 5, rest)?;
    let (id, rest) = word(rest)?;
    let (words, rest) = four(rest)?;
    let (first, rest) = word_if(kind <= LAST_WITH_PAGES, 0, GREATEST, rest)?;
    let (count, rest) = word_if(kind <= LAST_WITH_PAGES, 0, GREATEST, rest)?;
    let row = MessageRow {
        number,
        sender_pid,
        sender_tid,
        kind,
        id,
        words,
        first,
        count,
    };
    Ok((row, rest))
}

/// So many messages.
fn front_messages(
    alloc: Global,
    n: u32,
    count: u32,
    bytes: &[u8],
) -> Result<(Row<MessageRow>, &[u8]), Broken>
    ensures { Gives (λ x. (x.0, x.1.now)) result (items_at (message_at n) count bytes.now) }
{
    let mut rows = Row::new(alloc);
    let mut rest = bytes;
    for _ in 0..count {
        let (row, behind) = front_message(n, rest)?;
        rows.push(row)?;
        rest = behind;
    }
    Ok((rows, rest))
}

#[tactic(auto, unfolding(crate::specs::Rows::server_at))]
fn front_server(
    alloc: Global,
    n: u32,
    before: Option<u32>,
    bytes: &[u8],
) -> Result<(ServerRow, &[u8]), Broken>
    ensures { Gives (λ x. (x.0, x.1.now)) result (server_at n before bytes.now) }
{
    let (sid, rest) = four(bytes)?;
    let (serial, rest) = word_in(after(before), GREATEST, rest)?;
    let (pid, rest) = word_in(2, n as u64 + 1, rest)?;
    let (many_queued, rest) = word(rest)?;
    let (many_held, rest) = word(rest)?;
    let (queued, rest) = front_messages(alloc, n, many_queued, rest)?;
    let (held, rest) = front_messages(alloc, n, many_held, rest)?;
    let row = ServerRow {
        sid,
        serial,
        pid,
        queued,
        held,
    };
    Ok((row, rest))
}

/// So many servers, in order of their serials.
pub fn front_servers(
    alloc: Global,
    n: u32,
    count: u32,
    bytes: &[u8],
) -> Result<(Row<ServerRow>, &[u8]), Broken>
    ensures { Gives (λ x. (x.0, x.1.now)) result (rows_at (server_at n) server_key count None bytes.now) }
{
    let mut rows = Row::new(alloc);
    let mut before = None;
    let mut rest = bytes;
    for _ in 0..count {
        let (row, behind) = front_server(alloc, n, before, rest)?;
        before = Some(row.serial);
        rows.push(row)?;
        rest = behind;
    }
    Ok((rows, rest))
}
