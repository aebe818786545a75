//! Where the next pages of a process go.

ghost use Rattle.ledger_model.specs.LeastRun.{least_run};
ghost use Rattle.loan_flags.specs.FreeRuns.{least_free};
ghost use Rattle.phys_pages.specs.Ram.{area};
ghost use Rattle.std.specs.Prelude.{IsSome, IsTrue, length, ℕ, ◌%◌, ◌≡◌, ◌≢◌, ◌≤◌};
ghost use Rattle.sv32_space.specs.Agreement.{EntriesAgree, Infos};
ghost use Rattle.sv32_space.specs.Entries.{Entries};
ghost use Rattle.sv32_space.specs.EntryLedger.{SeatBytes, is_free_entry, ledger_of};
ghost use Rattle.sv32_space.specs.Spaces.{IsMade};
ghost use Rattle.sv32_space.specs.SpelledEntries.{entries, entry_spelled};
ghost use Rattle.sv32_space.specs.Tables.{IsTableOf};
ghost use Rattle.xk_base.specs.Numbers.Windows.{window_at};
ghost use Rattle.xk_base.specs.Tables.Circle.{is_pid};
ghost use Rattle.xk_base.specs.declared.ids.Pid.{Pid};
ghost use Rattle.xk_base.specs.declared.windows.Window.{Window};

use crate::sending::is_missing;
use phys_pages::Ram;
use sv32_space::{entry_said, entry_word, table_of};
use xk_base::{Pid, Place, Vpn, Window};

// Whether nothing stands at a place whose entry is this word; 0 is told without more.
#[tactic(auto, using(crate::proofs::FreeRunLemmas::zero_is_free))]
fn is_free_word(ram: &Ram, word: u32) -> bool
    ensures { result ≡ is_free_entry (entry_spelled (area ram.now) word) }
{
    word == 0 || is_missing(entry_said(ram, word))
}

// The table of a place, where that of the place before it is at hand.
fn next_table<'a>(ram: &'a Ram, table: &'a [u8], at: Place) -> &'a [u8]
    requires made { IsMade ram.now at.pid.0 }
    requires window { IsSome (window_at at.vpn.0) }
    requires len { length table.now ≡ 4096 }
    requires table { at.vpn.0 % 1024 ≢ 0 → IsTableOf ram.now at table.now }
    ensures len { length result.now ≡ 4096 }
    ensures table { IsTableOf ram.now at result.now }
{
    if at.vpn.0 % 1024 == 0 {
        table_of(ram, at)
    } else {
        table
    }
}

/// The least first page of n free places in a window of the process, or `None` where there are none.
/// It looks at each page of the window once, by the words of the window's tables.
pub fn free_run(ram: &Ram, pid: Pid, window: Window, n: u32) -> Option<Vpn>
    requires made { IsMade ram.now pid.0 }
    requires some { 1 ≤ n }
    ensures { (procs : ℕ) → IsTrue (is_pid procs pid.0) → result ≡ least_free (entries procs ram.now) pid window n }
{
    let first = window.first();
    let mut table = table_of(ram, Place { pid, vpn: first });
    let mut start = 0;
    for k in 0..window.last().0 + 1 - first.0 {
        let vpn = Vpn(first.0 + k);
        table = next_table(ram, table, Place { pid, vpn });
        if !is_free_word(ram, entry_word(table, vpn.0 % 1024)) {
            start = k + 1;
        } else if k + 1 - start == n {
            return Some(Vpn(first.0 + start));
        }
    }
    None
}

/// Where entries and owners agree, the least free run is that of their ledger.
#[tactic(auto, using(crate::proofs::FreeRunLemmas::least_by_entries))]
pub fn least_free_is_the_ledgers()
    ensures { (procs : ℕ) (E : Entries) (I : Infos) (B : SeatBytes) (pid : Pid) (window : Window) (n : ℕ) → EntriesAgree procs E I
        → least_free E pid window n ≡ least_run procs (ledger_of E I B) pid window n }
{}
