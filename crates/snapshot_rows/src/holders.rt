//! Whether pages on loan have places of their own at their holders.

ghost use Rattle.std.specs.Prelude.{◌≡◌, ◌↔◌, ◌++◌, ℕ, List, IsTrue, OnOk, IfOk};
ghost use Rattle.std.specs.List.{flat_map};
ghost use Rattle.snapshot_rows.specs.declared.state.OrphanRow.{OrphanRow as AnOrphan};
ghost use Rattle.snapshot_rows.specs.Order.{page_key, AscendInTwo};
ghost use Rattle.snapshot_rows.specs.Machines.{ledger_of};
ghost use Rattle.snapshot_rows.specs.PageParts.{holder_of, AreHoldersApart};

use crate::order::are_different;
use crate::state::PageRow;
use std::alloc::Global;
use xk_base::NoMemory;

/// Adds the place of a page at its holder, where it is on loan.
fn add_holder(keys: &mut Vec<(u32, u32)>, page: &PageRow) -> Result<(), NoMemory>
    ensures { OnOk result (keys.new.items ≡ keys.old.items ++ holder_of page.now) }
{
    if page.kind == 0 {
        return Ok(());
    }
    match keys.push((page.holder_pid, page.holder_page)) {
        Ok(()) => Ok(()),
        Err(_) => Err(NoMemory),
    }
}

fn holders(alloc: Global, pages: &[PageRow]) -> Result<Vec<(u32, u32)>, NoMemory>
    ensures { IfOk result (λ keys. keys.items ≡ flat_map holder_of pages.now) }
{
    let mut keys = Vec::new(alloc);
    for page in pages {
        add_holder(&mut keys, page)?;
    }
    Ok(keys)
}

/// Part 1, of holders' places: no two pages on loan have one.
pub fn are_holders_apart(alloc: Global, pages: &[PageRow]) -> Result<bool, NoMemory>
    requires { AscendInTwo page_key pages.now }
    ensures { (file : List ℕ) (orphans : List AnOrphan)
        → IfOk result (λ told. IsTrue told ↔ AreHoldersApart (ledger_of file pages.now orphans)) }
{
    let keys = holders(alloc, pages)?;
    Ok(are_different(keys))
}
