//! The pages and orphans of a state.

ghost use Rattle.std.specs.Prelude.{◌≡◌, None};
ghost use Rattle.suspend_image.specs.Reading.{Gives, rows_at};
ghost use Rattle.suspend_image.specs.Rows.{page_bytes_at, front_word as front_word_of, is_holder_pid as is_holder_pid_of, holder_pid_at};
ghost use Rattle.suspend_image.specs.Rows.{page_at, orphan_at};
ghost use Rattle.snapshot_rows.specs.Order.{page_key, orphan_key};

use crate::reading::broken::Broken;
use crate::reading::words::{GREATEST, least_first, least_second, word, word_if, word_in};
use byteorder::{ByteOrder, LittleEndian};
use snapshot_rows::{OrphanRow, PageRow};
use std::alloc::Global;
use xk_base::Row;
use xk_base::limits::PAGE_SIZE;

/// What the right of the console has beside its own bits.
const CONSOLE_RIGHT: u32 = 4;

/// Where the bytes of a page begin in a file of this size, or 0 where there are to be none.
#[tactic(auto, unfolding(crate::specs::Rows::page_bytes_at))]
fn front_page_bytes(there: bool, size: u32, bytes: &[u8]) -> Result<(u32, &[u8]), Broken>
    ensures { Gives (λ x. (x.0, x.1.now)) result (page_bytes_at there size bytes.now) }
{
    if !there {
        return Ok((0, bytes));
    }
    if bytes.len() < PAGE_SIZE as usize {
        return Err(Broken::Form(bytes.len()));
    }
    let from = (size as usize).saturating_sub(bytes.len()) as u32;
    let (_, rest) = bytes.split_at(PAGE_SIZE as usize);
    Ok((from, rest))
}

/// The word at the front, where it is there.
fn front_word(bytes: &[u8]) -> Option<u32>
    ensures { result ≡ front_word_of bytes.now }
{
    if bytes.len() < 4 {
        return None;
    }
    let (front, _) = bytes.split_at(4);
    Some(LittleEndian::read_u32(front))
}

/// Whether this is the pid of the holder of a loan of this kind, or rightly 0.
fn is_holder_pid(n: u32, kind: Option<u32>, pid: u32) -> bool
    ensures { result ≡ is_holder_pid_of n kind pid }
{
    let is_pid = 2 <= pid && pid as u64 <= n as u64 + 1;
    match kind {
        None => pid == 0 || is_pid,
        Some(0) => pid == 0,
        Some(_) => is_pid,
    }
}

#[tactic(auto, unfolding(crate::specs::Rows::holder_pid_at))]
fn front_holder_pid(n: u32, bytes: &[u8]) -> Result<(u32, &[u8]), Broken>
    ensures { Gives (λ x. (x.0, x.1.now)) result (holder_pid_at n bytes.now) }
{
    let (pid, rest) = word(bytes)?;
    // The kind of the loan stands behind the holder's page.
    let behind = rest.get(4..).unwrap_or(&[]);
    if !is_holder_pid(n, front_word(behind), pid) {
        return Err(Broken::Form(bytes.len()));
    }
    Ok((pid, rest))
}

#[tactic(auto, unfolding(crate::specs::Rows::page_at))]
fn front_page(
    size: u32,
    n: u32,
    before: Option<(u32, u32)>,
    bytes: &[u8],
) -> Result<(PageRow, &[u8]), Broken>
    ensures { Gives (λ x. (x.0, x.1.now)) result (page_at size n before bytes.now) }
{
    let (pid, rest) = word_in(least_first(2, before), n as u64 + 1, bytes)?;
    let (page, rest) = word_in(least_second(0, before, pid), GREATEST, rest)?;
    let (right, rest) = word_in(0, 7, rest)?;
    let (holder_pid, rest) = front_holder_pid(n, rest)?;
    let (holder_page, rest) = word_if(holder_pid != 0, 0, GREATEST, rest)?;
    let (kind, rest) = word_in(0, 2, rest)?;
    let (number, rest) = word_if(kind != 0, 0, GREATEST, rest)?;
    let (from, rest) = front_page_bytes(right < CONSOLE_RIGHT, size, rest)?;
    let row = PageRow {
        pid,
        page,
        right,
        holder_pid,
        holder_page,
        kind,
        number,
        from,
    };
    Ok((row, rest))
}

/// So many pages, in order of their homes.
pub fn front_pages(
    alloc: Global,
    size: u32,
    n: u32,
    count: u32,
    bytes: &[u8],
) -> Result<(Row<PageRow>, &[u8]), Broken>
    ensures { Gives (λ x. (x.0, x.1.now)) result (rows_at (page_at size n) page_key count None bytes.now) }
{
    let mut rows = Row::new(alloc);
    let mut before = None;
    let mut rest = bytes;
    for _ in 0..count {
        let (row, behind) = front_page(size, n, before, rest)?;
        before = Some((row.pid, row.page));
        rows.push(row)?;
        rest = behind;
    }
    Ok((rows, rest))
}

#[tactic(auto, unfolding(crate::specs::Rows::orphan_at))]
fn front_orphan(
    size: u32,
    n: u32,
    before: Option<(u32, u32)>,
    bytes: &[u8],
) -> Result<(OrphanRow, &[u8]), Broken>
    ensures { Gives (λ x. (x.0, x.1.now)) result (orphan_at size n before bytes.now) }
{
    let (pid, rest) = word_in(least_first(2, before), n as u64 + 1, bytes)?;
    let (page, rest) = word_in(least_second(0, before, pid), GREATEST, rest)?;
    let (kind, rest) = word_in(1, 2, rest)?;
    let (number, rest) = word(rest)?;
    let (from, rest) = front_page_bytes(true, size, rest)?;
    let row = OrphanRow {
        pid,
        page,
        kind,
        number,
        from,
    };
    Ok((row, rest))
}

/// So many orphans, in order of their holders' places.
pub fn front_orphans(
    alloc: Global,
    size: u32,
    n: u32,
    count: u32,
    bytes: &[u8],
) -> Result<(Row<OrphanRow>, &[u8]), Broken>
    ensures { Gives (λ x. (x.0, x.1.now)) result (rows_at (orphan_at size n) orphan_key count None bytes.now) }
{
    let mut rows = Row::new(alloc);
    let mut before = None;
    let mut rest = bytes;
    for _ in 0..count {
        let (row, behind) = front_orphan(size, n, before, rest)?;
        before = Some((row.pid, row.page));
        rows.push(row)?;
        rest = behind;
    }
    Ok((rows, rest))
}
