//! Whether the ledger is one that the machine can have.

ghost use Rattle.std.specs.Prelude.{◌≡◌, ◌↔◌, ℕ, List, IsTrue, IfOk};
ghost use Rattle.snapshot_rows.specs.PageParts.{is_ledger_told as is_ledger_told_of, IsLedgerRight};
ghost use Rattle.snapshot_rows.specs.Order.{AreRowsInOrder};

use crate::capacity::are_within;
use crate::holders::are_holders_apart;
use crate::living::{all_holders_living, all_homes_living};
use crate::places::{all_only_consoles, all_orphans_placed, all_pages_placed};
use crate::runs::are_one_run;
use crate::search::are_places_told;
use crate::state::State;
use std::alloc::Global;
use xk_base::NoMemory;

/// What of part 1 takes no memory to tell, without the capacity.
fn is_ledger_told(state: &State) -> bool
    requires { AreRowsInOrder state.now }
    ensures { result ≡ is_ledger_told_of state.now }
{
    let procs = state.procs.as_slice();
    let pages = state.pages.as_slice();
    let orphans = state.orphans.as_slice();
    all_pages_placed(state.n, pages)
        && all_orphans_placed(state.n, procs, orphans)
        && all_only_consoles(pages)
        && are_places_told(pages, orphans)
        && all_homes_living(procs, pages)
        && all_holders_living(procs, pages)
}

/// Part 1: the ledger is lawful, and homes, holders and places of orphans have living pids.
pub fn is_ledger_matched(alloc: Global, state: &State) -> Result<bool, NoMemory>
    requires { AreRowsInOrder state.now }
    ensures { (file : List ℕ) → IfOk result (λ told. IsTrue told ↔ IsLedgerRight file state.now) }
{
    let pages = state.pages.as_slice();
    let orphans = state.orphans.as_slice();
    if !is_ledger_told(state) {
        return Ok(false);
    }
    if !are_within(state.n, state.cap, pages, orphans) {
        return Ok(false);
    }
    if !are_holders_apart(alloc, pages)? {
        return Ok(false);
    }
    are_one_run(alloc, pages, orphans)
}
