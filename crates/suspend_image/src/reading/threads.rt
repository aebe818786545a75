//! The threads of a state.

ghost use Rattle.std.specs.Prelude.{◌≡◌, None};
ghost use Rattle.suspend_image.specs.Reading.{Gives, word_at, items_at, rows_at};
ghost use Rattle.suspend_image.specs.Rows.{waits_at, thread_at};
ghost use Rattle.snapshot_rows.specs.Order.{thread_key};

use crate::reading::broken::Broken;
use crate::reading::words::{least_first, least_second, word, word_in};
use snapshot_rows::{IDLE, JOINING, READY, ThreadRow};
use std::alloc::Global;
use xk_base::Row;
use xk_base::limits::TID_LIMIT;

/// What a thread of this state waits for.
#[tactic(auto, unfolding(crate::specs::Rows::waits_at))]
fn front_waits(state: u32, bytes: &[u8]) -> Result<(u32, &[u8]), Broken>
    ensures { Gives (λ x. (x.0, x.1.now)) result (waits_at state bytes.now) }
{
    if state == READY || state == IDLE {
        word_in(0, 0, bytes)
    } else if state == JOINING {
        word_in(1, TID_LIMIT as u64, bytes)
    } else {
        word(bytes)
    }
}

/// The registers x1 to x31.
fn front_registers(bytes: &[u8]) -> Result<([u32; 31], &[u8]), Broken>
    ensures { Gives (λ x. (x.0, x.1.now)) result (items_at word_at 31 bytes.now) }
{
    let mut regs = [0; 31];
    let mut rest = bytes;
    for i in 0..31usize {
        let (number, behind) = word(rest)?;
        regs[i] = number;
        rest = behind;
    }
    Ok((regs, rest))
}

#[tactic(auto, unfolding(crate::specs::Rows::thread_at))]
fn front_thread(
    n: u32,
    before: Option<(u32, u32)>,
    bytes: &[u8],
) -> Result<(ThreadRow, &[u8]), Broken>
    ensures { Gives (λ x. (x.0, x.1.now)) result (thread_at n before bytes.now) }
{
    let (pid, rest) = word_in(least_first(2, before), n as u64 + 1, bytes)?;
    let (tid, rest) = word_in(least_second(1, before, pid), TID_LIMIT as u64, rest)?;
    let (pc, rest) = word(rest)?;
    let (state, rest) = word_in(0, 4, rest)?;
    let (waits, rest) = front_waits(state, rest)?;
    let (regs, rest) = front_registers(rest)?;
    let row = ThreadRow {
        pid,
        tid,
        pc,
        state,
        waits,
        regs,
    };
    Ok((row, rest))
}

/// So many threads, in order of pid and tid.
pub fn front_threads(
    alloc: Global,
    n: u32,
    count: u32,
    bytes: &[u8],
) -> Result<(Row<ThreadRow>, &[u8]), Broken>
    ensures { Gives (λ x. (x.0, x.1.now)) result (rows_at (thread_at n) thread_key count None bytes.now) }
{
    let mut rows = Row::new(alloc);
    let mut before = None;
    let mut rest = bytes;
    for _ in 0..count {
        let (row, behind) = front_thread(n, before, rest)?;
        before = Some((row.pid, row.tid));
        rows.push(row)?;
        rest = behind;
    }
    Ok((rows, rest))
}
