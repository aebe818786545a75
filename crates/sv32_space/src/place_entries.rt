//! The entry of one place, read and written.

ghost use Rattle.phys_pages.specs.Ram.{area, pages};
ghost use Rattle.std.specs.Prelude.{IfSome, IsSome, IsTrue, Some, ℕ, ◌*◌, ◌≡◌, ◌≤◌};
ghost use Rattle.sv32_space.specs.PageChanges.{with_entry};
ghost use Rattle.sv32_space.specs.Spaces.{IsMade};
ghost use Rattle.sv32_space.specs.SpelledEntries.{IsEntry, console_entry, entries, entry_of_kind, entry_spelled, kind_for};
ghost use Rattle.sv32_space.specs.Spellings.{IsKind};
ghost use Rattle.xk_base.specs.Tables.Circle.{is_pid};
ghost use Rattle.xk_base.specs.Numbers.Limits.{table_frames};
ghost use Rattle.xk_base.specs.Numbers.Windows.{window_at};

use crate::entries::{entry_of, kind_of};
use crate::sides::{Entry, EntryKind, Side};
use crate::spaces::{leaf, set_leaf};
use phys_pages::{Ram, Seat};
use xk_base::limits::{CONSOLE_ADDRESS, PAGE_SIZE};
use xk_base::{Place, Right, Slot};

pub(crate) const CONSOLE_PPN: u32 = CONSOLE_ADDRESS / PAGE_SIZE;

// The console's entry, where a side may stand in it.
fn on_console(side: Side) -> Option<Entry>
    ensures { result ≡ console_entry side }
{
    match side {
        Side::Own(right) => {
            if right.x {
                None
            } else {
                Some(Entry::OnConsole { w: right.w })
            }
        }
        Side::LentOut(_) => None,
        Side::LentIn => None,
        Side::MutOut { x: _ } => None,
        Side::MutIn => None,
    }
}

// What a spelling says in this RAM.
#[tactic(auto, using(crate::proofs::KindLemmas::entry_is))]
fn entry_told(ram: &Ram, kind: EntryKind) -> Option<Entry>
    requires { IsKind kind }
    ensures fits { IfSome result (λ entry. IsEntry (area ram.now) entry) }
    ensures is { result ≡ entry_of_kind (area ram.now) (Some kind) }
{
    match kind {
        EntryKind::Free => Some(Entry::Free),
        EntryKind::Here { side, ppn } => match ram.frame_of(ppn) {
            Some(f) => Some(Entry::At {
                side,
                seat: Seat::Frame(f),
            }),
            None => {
                if ppn == CONSOLE_PPN {
                    on_console(side)
                } else {
                    None
                }
            }
        },
        EntryKind::Out { side, slot } => Some(Entry::At {
            side,
            seat: Seat::Slot(Slot(slot)),
        }),
    }
}

// How an entry is spelled in this RAM.
#[tactic(auto, using(crate::proofs::KindLemmas::entry_again))]
fn spelled(ram: &Ram, entry: Entry) -> EntryKind
    requires { IsEntry (area ram.now) entry }
    ensures is { result ≡ kind_for (area ram.now) entry }
    ensures kind { IsKind result }
    ensures entry { entry_of_kind (area ram.now) (Some result) ≡ Some entry }
{
    // For the prover: RAM starts at a page and ends below the console.
    let _frames = ram.frames();
    match entry {
        Entry::Free => EntryKind::Free,
        Entry::At { side, seat } => match seat {
            Seat::Frame(f) => EntryKind::Here {
                side,
                ppn: ram.ppn_of(f),
            },
            Seat::Slot(s) => EntryKind::Out { side, slot: s.0 },
        },
        Entry::OnConsole { w } => EntryKind::Here {
            side: Side::Own(Right { w, x: false }),
            ppn: CONSOLE_PPN,
        },
    }
}

/// What a word of a table says. `None` where it is no spelling, or names neither a frame of RAM nor a
/// slot, nor the console's page as its owner may have it.
pub fn entry_said(ram: &Ram, word: u32) -> Option<Entry>
    ensures is { result ≡ entry_spelled (area ram.now) word }
    ensures fits { IfSome result (λ entry. IsEntry (area ram.now) entry) }
{
    match kind_of(word) {
        Some(kind) => entry_told(ram, kind),
        None => None,
    }
}

/// What the entry of a place says. `None` where it names neither a frame of RAM nor a slot, nor the
/// console's page as its owner may have it.
pub fn entry_at(ram: &Ram, at: Place) -> Option<Entry>
    requires made { IsMade ram.now at.pid.0 }
    requires window { IsSome (window_at at.vpn.0) }
    ensures is { (procs : ℕ) → IsTrue (is_pid procs at.pid.0) → entries procs ram.now at ≡ result }
    ensures fits { IfSome result (λ entry. IsEntry (area ram.now) entry) }
{
    entry_said(ram, leaf(ram, at))
}

/// Writes the entry of a place. Every other entry stays, and every frame outside the tables.
pub fn set_entry(ram: &mut Ram, at: Place, entry: Entry)
    requires made { IsMade ram.old at.pid.0 }
    requires window { IsSome (window_at at.vpn.0) }
    requires entry { IsEntry (area ram.old) entry }
    ensures entries { (procs : ℕ) → IsTrue (is_pid procs at.pid.0)
        → entries procs ram.new ≡ with_entry (entries procs ram.old) at entry }
    ensures pages { (procs f : ℕ) → IsTrue (is_pid procs at.pid.0) → table_frames procs ≤ f → pages ram.new f ≡ pages ram.old f }
    ensures made { (pid : ℕ) → IsMade ram.old pid → IsMade ram.new pid }
    ensures area { area ram.new ≡ area ram.old }
{
    set_leaf(ram, at, entry_of(spelled(ram, entry)));
}
