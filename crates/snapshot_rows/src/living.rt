//! Whether pages and those on loan are in living processes.

ghost use Rattle.std.specs.Prelude.{◌≡◌};
ghost use Rattle.std.specs.List.{list_all};
ghost use Rattle.snapshot_rows.specs.PageParts.{is_home_living as is_home_living_of, is_holder_living as is_holder_living_of};

use crate::processes::is_alive;
use crate::state::{PageRow, ProcRow};

fn is_home_living(procs: &[ProcRow], page: &PageRow) -> bool
    ensures { result ≡ is_home_living_of procs.now page.now }
{
    is_alive(procs, page.pid)
}

/// Whether each page has its home in a living process.
pub fn all_homes_living(procs: &[ProcRow], pages: &[PageRow]) -> bool
    ensures { result ≡ list_all (is_home_living_of procs.now) pages.now }
{
    pages.iter().all(|page| is_home_living(procs, page))
}

fn is_holder_living(procs: &[ProcRow], page: &PageRow) -> bool
    ensures { result ≡ is_holder_living_of procs.now page.now }
{
    page.kind == 0 || is_alive(procs, page.holder_pid)
}

/// Whether each page on loan has its holder's place in a living process.
pub fn all_holders_living(procs: &[ProcRow], pages: &[PageRow]) -> bool
    ensures { result ≡ list_all (is_holder_living_of procs.now) pages.now }
{
    pages.iter().all(|page| is_holder_living(procs, page))
}
