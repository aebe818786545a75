//! Whether the machine can have the heaps of a state, told from the rows.

ghost use Rattle.std.specs.Prelude.{◌≡◌, ◌↔◌, ◌&&◌, ℕ, List, IsTrue};
ghost use Rattle.std.specs.List.{list_all};
ghost use Rattle.machine_model.specs.Runs.Matched.{AreHeapsMatched};
ghost use Rattle.snapshot_rows.specs.declared.state.OrphanRow.{OrphanRow as AnOrphan};
ghost use Rattle.snapshot_rows.specs.Order.{page_key, AscendInTwo};
ghost use Rattle.snapshot_rows.specs.Machines.{processes_of, ledger_of};
ghost use Rattle.snapshot_matching.specs.ProcessParts.{is_heap_page as is_heap_page_of, is_below_heap as is_below_heap_of, is_heap_whole};

use snapshot_rows::{PageRow, ProcRow};
use xk_base::limits::PAGE_SIZE;

/// The greatest length of a heap: 16 MiB.
const HEAP_LIMIT: u32 = 0x100_0000;

/// The first and the last page of the Heap window.
const FIRST_OF_HEAP: u32 = 0x2_0000;

const LAST_OF_HEAP: u32 = 0x2_0fff;

/// Whether each heap is of whole pages, up to 16 MiB.
fn are_heaps_whole(procs: &[ProcRow]) -> bool
    ensures { result ≡ list_all is_heap_whole procs.now }
{
    procs.iter().all(|process| process.heap % PAGE_SIZE == 0 && process.heap <= HEAP_LIMIT)
}

/// The length of a process's heap; 0 where there is no process of this pid.
fn heap_of(procs: &[ProcRow], pid: u32) -> u32
    ensures { result ≡ (processes_of procs.now pid).heap }
{
    if pid < 2 {
        return 0;
    }
    match procs.get(pid as usize - 2) {
        Some(process) => process.heap,
        None => 0,
    }
}

fn is_heap_page(page: &PageRow) -> bool
    ensures { result ≡ is_heap_page_of page.now }
{
    FIRST_OF_HEAP <= page.page && page.page <= LAST_OF_HEAP
}

/// Whether a page of the Heap window lies below the end of its process's heap.
fn is_below_heap(procs: &[ProcRow], page: &PageRow) -> bool
    ensures { result ≡ is_below_heap_of procs.now page.now }
{
    !is_heap_page(page) || page.page < FIRST_OF_HEAP + heap_of(procs, page.pid) / PAGE_SIZE
}

fn all_below_heaps(procs: &[ProcRow], pages: &[PageRow]) -> bool
    ensures { result ≡ list_all (is_below_heap_of procs.now) pages.now }
{
    pages.iter().all(|page| is_below_heap(procs, page))
}

fn are_heaps_told(procs: &[ProcRow], pages: &[PageRow]) -> bool
    ensures { result ≡ (list_all is_heap_whole procs.now && list_all (is_below_heap_of procs.now) pages.now) }
{
    are_heaps_whole(procs) && all_below_heaps(procs, pages)
}

/// Part 7: heaps are of whole pages, up to 16 MiB, and what stands in the Heap window lies below the
/// heap's end.
pub fn are_heaps_matched(procs: &[ProcRow], pages: &[PageRow]) -> bool
    requires { AscendInTwo page_key pages.now }
    ensures { (file : List ℕ) (orphans : List AnOrphan)
        → IsTrue result ↔ AreHeapsMatched (processes_of procs.now) (ledger_of file pages.now orphans) }
{
    are_heaps_told(procs, pages)
}
