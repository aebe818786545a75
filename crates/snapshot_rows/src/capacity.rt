//! Whether there is room for all pages and orphans.

ghost use Rattle.std.specs.Prelude.{◌≡◌, ◌↔◌, ℕ, List, IsTrue};
ghost use Rattle.std.specs.List.{count_by};
ghost use Rattle.snapshot_rows.specs.Order.{page_key, orphan_key, AscendInTwo};
ghost use Rattle.snapshot_rows.specs.Machines.{ledger_of};
ghost use Rattle.snapshot_rows.specs.PageParts.{is_counted_page, is_counted_orphan as is_counted_orphan_of, AreWithin};

use crate::places::{CONSOLE, is_home_placed, is_pid};
use crate::state::{OrphanRow, PageRow};
use xk_base::{Vpn, window_of};

/// Whether a page counts: it has a place of the machine and isn't the console.
fn is_counted(n: u32, page: &PageRow) -> bool
    ensures { result ≡ is_counted_page n page.now }
{
    is_home_placed(n, page) && page.right < CONSOLE
}

fn is_counted_orphan(n: u32, orphan: &OrphanRow) -> bool
    ensures { result ≡ is_counted_orphan_of n orphan.now }
{
    is_pid(n, orphan.pid) && window_of(Vpn(orphan.page)).is_some()
}

fn count_pages(n: u32, pages: &[PageRow]) -> usize
    ensures { result ≡ count_by (is_counted_page n) pages.now }
{
    pages.iter().filter(|page| is_counted(n, page)).count()
}

fn count_orphans(n: u32, orphans: &[OrphanRow]) -> usize
    ensures { result ≡ count_by (is_counted_orphan_of n) orphans.now }
{
    orphans
        .iter()
        .filter(|orphan| is_counted_orphan(n, orphan))
        .count()
}

/// Part 1, of the capacity: there is room for all pages but the console, and for all orphans.
pub fn are_within(n: u32, cap: u32, pages: &[PageRow], orphans: &[OrphanRow]) -> bool
    requires pages { AscendInTwo page_key pages.now }
    requires orphans { AscendInTwo orphan_key orphans.now }
    ensures { (file : List ℕ) → IsTrue result ↔ AreWithin n cap (ledger_of file pages.now orphans.now) }
{
    count_pages(n, pages) + count_orphans(n, orphans) <= cap as usize
}
