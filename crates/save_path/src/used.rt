//! Where something stands, found by the words of the page tables: of most tables no word is used.

ghost use Rattle.std.specs.Prelude.{◌≡◌, ℕ, ◌<◌, ◌≤◌, ◌*◌};
ghost use Rattle.ledger_model.specs.Places.{place_at, places_of_process};
ghost use Rattle.vm_memory.specs.Memory.{ledger, processes};
ghost use Rattle.vm_memory.specs.Sound.{IsSound};
ghost use Rattle.save_path.specs.Pages.{HasNoPage};

use crate::places::place_at;
use sv32_space::{table_of, used_entry};
use vm_memory::Memory;
use xk_ports::SwapStore;

/// How many entries a table has.
const ENTRIES: u32 = 1024;

/// The first place from this number on at which something may stand, of those below the end, or the end.
pub(crate) fn next_used<W: SwapStore>(mem: &Memory<W>, from: u32, end: u32) -> u32
    requires sound { IsSound W.slot_count mem.now }
    requires end { end ≡ places_of_process * processes mem.now }
    requires from { from ≤ end }
    ensures low { from ≤ result }
    ensures high { result ≤ end }
    ensures free { (k : ℕ) → from ≤ k → k < result → HasNoPage (ledger W.held mem.now) (place_at k) }
{
    let mut number = from;
    'tables: while number < end {
        let at = place_at(number);
        let entry = at.vpn.0 % ENTRIES;
        let used = used_entry(table_of(mem.ram(), at), entry);
        number += used - entry;
        if used < ENTRIES {
            return number;
        }
    }
    number
}
