//! Whether a place is that of a page, or of an orphan: rows stand in order of their places, so that
//! each is found by halving.

ghost use Rattle.std.specs.Prelude.{◌≡◌, ◌↔◌, ◌==◌, ◌&&◌, ℕ, List, IsTrue};
ghost use Rattle.std.specs.List.{list_any, list_all};
ghost use Rattle.snapshot_rows.specs.Order.{page_key, orphan_key, AscendInTwo};
ghost use Rattle.snapshot_rows.specs.PageParts.{is_holder_apart as is_holder_apart_of, is_orphan_apart as is_orphan_apart_of};

use crate::state::{OrphanRow, PageRow};

/// Whether a page has its home at a place.
fn is_home(pages: &[PageRow], pid: u32, number: u32) -> bool
    requires { AscendInTwo page_key pages.now }
    ensures { result ≡ list_any (λ p. p.pid == pid && p.page == number) pages.now }
{
    pages
        .binary_search_by_key(&(pid, number), |page| (page.pid, page.page))
        .is_ok()
}

/// Whether an orphan stands at a place.
fn is_orphan(orphans: &[OrphanRow], pid: u32, number: u32) -> bool
    requires { AscendInTwo orphan_key orphans.now }
    ensures { result ≡ list_any (λ o. o.pid == pid && o.page == number) orphans.now }
{
    orphans
        .binary_search_by_key(&(pid, number), |orphan| (orphan.pid, orphan.page))
        .is_ok()
}

/// Whether a page isn't on loan, or its holder's place is neither a home nor an orphan's.
fn is_holder_apart(pages: &[PageRow], orphans: &[OrphanRow], page: &PageRow) -> bool
    requires pages { AscendInTwo page_key pages.now }
    requires orphans { AscendInTwo orphan_key orphans.now }
    ensures { result ≡ is_holder_apart_of pages.now orphans.now page.now }
{
    page.kind == 0
        || (!is_home(pages, page.holder_pid, page.holder_page)
            && !is_orphan(orphans, page.holder_pid, page.holder_page))
}

fn all_holders_apart(pages: &[PageRow], orphans: &[OrphanRow]) -> bool
    requires pages { AscendInTwo page_key pages.now }
    requires orphans { AscendInTwo orphan_key orphans.now }
    ensures { result ≡ list_all (is_holder_apart_of pages.now orphans.now) pages.now }
{
    pages
        .iter()
        .all(|page| is_holder_apart(pages, orphans, page))
}

fn all_orphans_apart(pages: &[PageRow], orphans: &[OrphanRow]) -> bool
    requires { AscendInTwo page_key pages.now }
    ensures { result ≡ list_all (is_orphan_apart_of pages.now) orphans.now }
{
    orphans
        .iter()
        .all(|orphan| !is_home(pages, orphan.pid, orphan.page))
}

/// Whether no holder's place is a home or an orphan's, and no orphan's is a home.
pub fn are_places_told(pages: &[PageRow], orphans: &[OrphanRow]) -> bool
    requires pages { AscendInTwo page_key pages.now }
    requires orphans { AscendInTwo orphan_key orphans.now }
    ensures { result ≡ (list_all (is_holder_apart_of pages.now orphans.now) pages.now
        && list_all (is_orphan_apart_of pages.now) orphans.now) }
{
    all_holders_apart(pages, orphans) && all_orphans_apart(pages, orphans)
}
