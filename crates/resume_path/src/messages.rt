//! One message of a state, and its loan from the pages of its sender.

ghost use Rattle.std.specs.Prelude.{◌≡◌, ◌+◌, ◌<◌, ◌≤◌, All, IsSome, Some, length, slice_get};
ghost use Rattle.snapshot_rows.specs.Machines.{message_of, sender_of};
ghost use Rattle.snapshot_rows.specs.Order.{page_key, AscendInTwo};
ghost use Rattle.snapshot_rows.specs.declared.state.PageRow.{PageRow as Page};
ghost use Rattle.xk_base.specs.declared.ids.Place.{Place as PlaceOf};
ghost use Rattle.xk_base.specs.Calls.Kinds.{kind_at};
ghost use Rattle.resume_path.specs.Messages.{first_lent, is_lend_row, is_orphaned, row_kind};
ghost use Rattle.resume_path.specs.Standing.{row_messages};

use suspend_image::{MessageRow, PageRow, ServerRow};
use xk_base::{LoanKind, Message, MsgKind, Number, Pid, Place, ThreadId, Tid, Vpn};

// The kind of a message of the state.
fn kind(row: &MessageRow) -> MsgKind
    requires { IsSome (kind_at row.now.kind) }
    ensures { kind_at row.now.kind ≡ Some result }
{
    match MsgKind::from_number(row.kind) {
        Some(kind) => kind,
        None => unreachable!(),
    }
}

// The thread that waits for the answer to a message of the state.
fn sender(row: &MessageRow) -> Option<ThreadId>
    requires pid { row.now.sender_pid < 256 }
    requires tid { row.now.sender_tid < 256 }
    ensures { result ≡ sender_of row.now }
{
    if row.sender_pid == 0 {
        return None;
    }
    Some(ThreadId {
        pid: Pid(row.sender_pid as u8),
        tid: Tid(row.sender_tid as u8),
    })
}

// A message of the state.
pub(crate) fn message(row: &MessageRow) -> Message
    requires kind { IsSome (kind_at row.now.kind) }
    requires pid { row.now.sender_pid < 256 }
    requires tid { row.now.sender_tid < 256 }
    ensures { result ≡ message_of row.now }
{
    Message {
        number: Number(row.number),
        sender: sender(row),
        kind: kind(row),
        id: row.id,
        words: row.words,
        first: Vpn(row.first),
        count: row.count,
    }
}

// Whether a message lends pages, mutably or not.
pub(crate) fn is_lend(row: &MessageRow) -> bool
    ensures { result ≡ is_lend_row row.now }
{
    row.kind == MsgKind::LendMut.number() || row.kind == MsgKind::Lend.number()
}

// .. and its lender died.
pub(crate) fn is_orphaned(row: &MessageRow) -> bool
    ensures { result ≡ is_orphaned row.now }
{
    is_lend(row) && row.sender_pid == 0
}

// The kind of the loan of a lend.
pub(crate) fn loan_kind(row: &MessageRow) -> LoanKind
    ensures { result ≡ row_kind row.now }
{
    if row.kind == MsgKind::Lend.number() {
        LoanKind::Shared
    } else {
        LoanKind::Exclusive
    }
}

// The home of the first page that is on loan by the message of a number.
pub(crate) fn first_lent(pages: &[PageRow], number: u32) -> Option<Place>
    requires { All (λ (page : Page). page.pid < 256) pages.now }
    ensures { result ≡ first_lent pages.now number }
{
    let page = pages
        .iter()
        .find(|page| page.kind != 0 && page.number == number)?;
    Some(Place {
        pid: Pid(page.pid as u8),
        vpn: Vpn(page.page),
    })
}

// .. where that page is one of the process, whose pages alone are looked at, and those behind them. A process has no more loans
// than threads, so each page is looked at a few times.
pub(crate) fn first_lent_by(pages: &[PageRow], pid: u32, number: u32) -> Option<Place>
    requires pids { All (λ (page : Page). page.pid < 256) pages.now }
    requires order { AscendInTwo page_key pages.now }
    requires lender { (at : PlaceOf) → first_lent pages.now number ≡ Some at → at.pid.0 ≡ pid }
    ensures { result ≡ first_lent pages.now number }
{
    let first = pages.partition_point(|page| page.pid < pid);
    first_lent(&pages[first..], number)
}

// How many messages a server has.
pub(crate) fn message_count(server: &ServerRow) -> usize
    requires few { length server.now.queued + length server.now.held ≤ 128 }
    ensures { result ≡ length (row_messages server.now) }
{
    server.queued.as_slice().len() + server.held.as_slice().len()
}

// Its k-th message: the queued ones come before the held ones.
pub(crate) fn message_at(server: &ServerRow, k: usize) -> &MessageRow
    requires there { k < length (row_messages server.now) }
    ensures { slice_get (row_messages server.now) k ≡ Some result.now }
{
    let queued = server.queued.as_slice();
    if k < queued.len() {
        &queued[k]
    } else {
        &server.held.as_slice()[k - queued.len()]
    }
}
