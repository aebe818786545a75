//! The entries of 1,024 pages at once, as the words of their table: where a window is searched, no
//! entry is looked up by itself.

ghost use Rattle.phys_pages.specs.Ram.{Area, IsPlaced, area, word_in};
ghost use Rattle.std.specs.Prelude.{IsSome, IsTrue, length, true, false, ℕ, ◌*◌, ◌<◌, ◌≤◌, ◌≡◌};
ghost use Rattle.sv32_space.specs.Spaces.{IsMade};
ghost use Rattle.sv32_space.specs.SpelledEntries.{entries, entry_spelled};
ghost use Rattle.sv32_space.specs.Tables.{IsTableOf, has_console, is_console_entry};
ghost use Rattle.xk_base.specs.Numbers.Windows.{window_at};
ghost use Rattle.xk_base.specs.Tables.Circle.{is_pid};

use crate::place_entries::CONSOLE_PPN;
use crate::spaces::table_at;
use byteorder::{ByteOrder, LittleEndian};
use phys_pages::Ram;
use xk_base::{Pid, Place, Vpn, Window};

// The console's entry, to be loaded from alone, and to be stored to as well.
const CONSOLE_READ: u32 = CONSOLE_PPN * 1024 + 0x0D3;

const CONSOLE_WRITE: u32 = CONSOLE_PPN * 1024 + 0x0D7;

/// The 4096 bytes of the table in which a place's entry stands.
pub fn table_of(ram: &Ram, at: Place) -> &[u8]
    requires made { IsMade ram.now at.pid.0 }
    requires window { IsSome (window_at at.vpn.0) }
    ensures len { length result.now ≡ 4096 }
    ensures table { IsTableOf ram.now at result.now }
{
    ram.page(table_at(at))
}

/// The word at an index of a table.
pub fn entry_word(table: &[u8], index: u32) -> u32
    requires len { length table.now ≡ 4096 }
    requires low { index < 1024 }
    ensures { result ≡ word_in table.now (4 * index) }
{
    LittleEndian::read_u32(&table[4 * index as usize..])
}

/// The first entry of a table from this one on that isn't 0; 1,024 where there is none.
pub fn used_entry(table: &[u8], from: u32) -> u32
    requires len { length table.now ≡ 4096 }
    requires from { from ≤ 1024 }
    ensures low { from ≤ result }
    ensures high { result ≤ 1024 }
    ensures free { (k : ℕ) → from ≤ k → k < result → word_in table.now (4 * k) ≡ 0 }
{
    'entries: for index in from..1024 {
        if entry_word(table, index) != 0 {
            return index;
        }
    }
    1024
}

// Whether a word spells the console's entry.
#[tactic(auto, using(crate::proofs::TableLemmas::console_words))]
fn is_console(word: u32) -> bool
    ensures { (a : Area) → IsPlaced a → result ≡ is_console_entry (entry_spelled a word) }
{
    word == CONSOLE_READ || word == CONSOLE_WRITE
}

// The bits that are set in any word of the table. No word is above it.
fn all_bits(table: &[u8]) -> u32
    requires len { length table.now ≡ 4096 }
    ensures { (k : ℕ) → k < 1024 → word_in table.now (4 * k) ≤ result }
{
    let mut bits = 0;
    for i in 0..1024 {
        bits |= entry_word(table, i);
    }
    bits
}

// Whether a word of the table spells the console's entry. Pages stand below the console, so that the
// words of nearly every table lack a bit of its entry: then none is compared. It doesn't stop at the
// first word, so that the machine takes several at once.
fn any_console(table: &[u8]) -> bool
    requires len { length table.now ≡ 4096 }
    ensures found { (a : Area) → IsPlaced a → result ≡ true
        → (k : ℕ) × (k < 1024) × (is_console_entry (entry_spelled a (word_in table.now (4 * k))) ≡ true) }
    ensures none { (a : Area) (k : ℕ) → IsPlaced a → result ≡ false → k < 1024
        → is_console_entry (entry_spelled a (word_in table.now (4 * k))) ≡ false }
{
    let below = all_bits(table) < CONSOLE_READ;
    if below {
        return false;
    }
    let mut found = false;
    for i in 0..1024 {
        found |= is_console(entry_word(table, i));
    }
    found
}

/// Whether a process has mapped the console: it looks through the four tables of its Map window.
pub fn maps_console(ram: &Ram, pid: Pid) -> bool
    requires made { IsMade ram.now pid.0 }
    ensures { (procs : ℕ) → IsTrue (is_pid procs pid.0) → result ≡ has_console (entries procs ram.now) pid }
{
    // For the prover: RAM starts at a page and ends below the console.
    let _frames = ram.frames();
    let first = Window::Map.first().0;
    for i in 0..4 {
        let at = Place {
            pid,
            vpn: Vpn(first + 1024 * i),
        };
        if any_console(table_of(ram, at)) {
            return true;
        }
    }
    false
}
