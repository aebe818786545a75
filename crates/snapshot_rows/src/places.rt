//! Whether pages and orphans stand where the machine can have them, each looked at alone.

ghost use Rattle.std.specs.Prelude.{◌≡◌, ◌↔◌, ℕ, List, IsTrue};
ghost use Rattle.std.specs.List.{list_all};
ghost use Rattle.xk_base.specs.Tables.Circle.{is_pid as is_pid_of};
ghost use Rattle.snapshot_rows.specs.PageParts.{is_home_placed as is_home_placed_of, is_holder_placed as is_holder_placed_of};
ghost use Rattle.snapshot_rows.specs.PageParts.{is_console_placed as is_console_placed_of, is_lent_writable as is_lent_writable_of};
ghost use Rattle.snapshot_rows.specs.PageParts.{is_page_placed as is_page_placed_of, is_orphan_placed as is_orphan_placed_of};
ghost use Rattle.snapshot_rows.specs.PageParts.{is_console_at as is_console_at_of, is_only_console as is_only_console_of};

use crate::processes::is_alive;
use crate::state::{OrphanRow, PageRow, ProcRow};
use xk_base::{Vpn, window_of};

/// The first and the last page of the Message window, and of the Map window.
const FIRST_OF_MESSAGE: u32 = 0x4_0000;

const LAST_OF_MESSAGE: u32 = 0x4_0fff;

const FIRST_OF_MAP: u32 = 0x6_0000;

const LAST_OF_MAP: u32 = 0x6_0fff;

/// The number of the kind Shared, and the least right of the console.
const SHARED: u32 = 1;

pub const CONSOLE: u32 = 4;

/// Whether `pid` is one of `n` processes, which are numbered from 2.
pub fn is_pid(n: u32, pid: u32) -> bool
    ensures { result ≡ is_pid_of n pid }
{
    2 <= pid && (pid as u64) < n as u64 + 2
}

/// Whether the home of a page lies in a window of one of n processes.
pub fn is_home_placed(n: u32, page: &PageRow) -> bool
    ensures { result ≡ is_home_placed_of n page.now }
{
    is_pid(n, page.pid) && window_of(Vpn(page.page)).is_some()
}

/// Whether a page on loan has its holder's place in the Message window.
fn is_holder_placed(n: u32, page: &PageRow) -> bool
    ensures { result ≡ is_holder_placed_of n page.now }
{
    page.kind == 0
        || (is_pid(n, page.holder_pid)
            && FIRST_OF_MESSAGE <= page.holder_page
            && page.holder_page <= LAST_OF_MESSAGE)
}

/// Whether the console lies in the Map window, and is neither on loan nor executable.
fn is_console_placed(n: u32, page: &PageRow) -> bool
    ensures { result ≡ is_console_placed_of n page.now }
{
    page.right < CONSOLE
        || ((is_pid(n, page.pid) && FIRST_OF_MAP <= page.page && page.page <= LAST_OF_MAP)
            && page.kind == 0
            && page.right / 2 % 2 != 1)
}

/// Whether a page under an Exclusive loan is writable.
fn is_lent_writable(page: &PageRow) -> bool
    ensures { result ≡ is_lent_writable_of page.now }
{
    page.kind == 0 || page.kind == SHARED || page.right % 2 == 1
}

fn is_page_placed(n: u32, page: &PageRow) -> bool
    ensures { result ≡ is_page_placed_of n page.now }
{
    is_home_placed(n, page)
        && is_holder_placed(n, page)
        && is_console_placed(n, page)
        && is_lent_writable(page)
}

/// Whether each page is placed: home and holder are among `n` processes, a page lent Exclusive is writable, and a console
/// page is at the console's place.
pub fn all_pages_placed(n: u32, pages: &[PageRow]) -> bool
    ensures { result ≡ list_all (is_page_placed_of n) pages.now }
{
    pages.iter().all(|page| is_page_placed(n, page))
}

fn is_orphan_placed(n: u32, procs: &[ProcRow], orphan: &OrphanRow) -> bool
    ensures { result ≡ is_orphan_placed_of n procs.now orphan.now }
{
    is_pid(n, orphan.pid)
        && FIRST_OF_MESSAGE <= orphan.page
        && orphan.page <= LAST_OF_MESSAGE
        && is_alive(procs, orphan.pid)
}

/// Whether each orphaned page is in the window of messages of a living process, one of `n`.
pub fn all_orphans_placed(n: u32, procs: &[ProcRow], orphans: &[OrphanRow]) -> bool
    ensures { result ≡ list_all (is_orphan_placed_of n procs.now) orphans.now }
{
    orphans
        .iter()
        .all(|orphan| is_orphan_placed(n, procs, orphan))
}

/// Whether a page isn't the console, or stands at the place of the other.
fn is_console_at(console: &PageRow, page: &PageRow) -> bool
    ensures { result ≡ is_console_at_of console.now page.now }
{
    page.right < CONSOLE || (page.pid == console.pid && page.page == console.page)
}

fn are_consoles_at(pages: &[PageRow], console: &PageRow) -> bool
    ensures { result ≡ list_all (is_console_at_of console.now) pages.now }
{
    pages.iter().all(|page| is_console_at(console, page))
}

fn is_only_console(pages: &[PageRow], page: &PageRow) -> bool
    ensures { result ≡ is_only_console_of pages.now page.now }
{
    page.right < CONSOLE || are_consoles_at(pages, page)
}

/// The first two consoles end the look, so that pages are looked at twice at most.
pub fn all_only_consoles(pages: &[PageRow]) -> bool
    ensures { result ≡ list_all (is_only_console_of pages.now) pages.now }
{
    pages.iter().all(|page| is_only_console(pages, page))
}
