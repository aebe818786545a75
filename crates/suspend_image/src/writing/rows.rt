//! The rows of a state are written.

ghost use Rattle.std.specs.Prelude.{◌≡◌, ◌^◌, ◌<◌, length};
ghost use Rattle.suspend_image.specs.Sheets.{HasRoom, appended};
ghost use Rattle.suspend_image.specs.Spelling.{thread_bytes, message_bytes, claim_bytes, page_words, orphan_words};

use crate::writing::sheet::Sheet;
use snapshot_rows::{ClaimRow, MessageRow, OrphanRow, PageRow, ThreadRow};

/// Appends a thread.
#[tactic(auto, unfolding(crate::specs::Spelling::thread_bytes))]
pub fn write_thread(sheet: &mut Sheet, thread: &ThreadRow)
    requires { HasRoom sheet.old (thread_bytes thread.now) }
    ensures { sheet.new ≡ appended (thread_bytes thread.now) sheet.old }
{
    let ThreadRow {
        pid,
        tid,
        pc,
        state,
        waits,
        regs,
    } = *thread;
    sheet.push_words(&[pid, tid, pc, state, waits]);
    sheet.push_words(&regs);
}

/// Appends a message.
#[tactic(auto, unfolding(crate::specs::Spelling::message_bytes))]
pub fn write_message(sheet: &mut Sheet, message: &MessageRow)
    requires { HasRoom sheet.old (message_bytes message.now) }
    ensures { sheet.new ≡ appended (message_bytes message.now) sheet.old }
{
    sheet.push_words(&[
        message.number,
        message.sender_pid,
        message.sender_tid,
        message.kind,
        message.id,
    ]);
    sheet.push_words(&message.words);
    sheet.push_words(&[message.first, message.count]);
}

/// Appends a claim.
#[tactic(auto, unfolding(crate::specs::Spelling::claim_bytes))]
pub fn write_claim(sheet: &mut Sheet, claim: &ClaimRow)
    requires { HasRoom sheet.old (claim_bytes claim.now) }
    ensures { sheet.new ≡ appended (claim_bytes claim.now) sheet.old }
{
    sheet.push_words(&[
        claim.number,
        claim.pid,
        claim.handler,
        claim.arg,
        claim.pending,
    ]);
}

/// Appends the words of a page; its bytes are to follow, unless it is the console.
pub fn write_page_words(sheet: &mut Sheet, page: &PageRow)
    requires { HasRoom sheet.old (page_words page.now) }
    ensures { sheet.new ≡ appended (page_words page.now) sheet.old }
{
    sheet.push_words(&[
        page.pid,
        page.page,
        page.right,
        page.holder_pid,
        page.holder_page,
        page.kind,
        page.number,
    ]);
}

/// Appends the words of an orphan; its bytes are to follow.
pub fn write_orphan_words(sheet: &mut Sheet, orphan: &OrphanRow)
    requires { HasRoom sheet.old (orphan_words orphan.now) }
    ensures { sheet.new ≡ appended (orphan_words orphan.now) sheet.old }
{
    sheet.push_words(&[orphan.pid, orphan.page, orphan.kind, orphan.number]);
}
