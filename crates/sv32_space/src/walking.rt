//! The page walk of Sv32 in user mode.

ghost use Rattle.std.specs.Prelude.{◌≡◌, ℕ, ◌+◌, ◌*◌, ◌/◌, ◌%◌, ◌<◌, ◌^◌, Some, None};
ghost use Rattle.xk_base.specs.Numbers.Fields.{field};
ghost use Rattle.phys_pages.specs.Ram.{area, words, ppn_of};
ghost use Rattle.xk_base.specs.declared.ids.Place.{Place};
ghost use Rattle.xk_base.specs.Numbers.Windows.{window_at};
ghost use Rattle.sv32_space.specs.declared.walking.Walked.TheVariants.{PageFault};
ghost use Rattle.sv32_space.specs.declared.sides.Entry.{Entry};
ghost use Rattle.sv32_space.specs.EntryReach.{entry_reach};
ghost use Rattle.sv32_space.specs.Spaces.{root_at, IsMade};
ghost use Rattle.sv32_space.specs.SpelledEntries.{entries};
ghost use Rattle.sv32_space.specs.Walk.{entry_in_table, flag, is_valid, is_leaf, is_pointer, lets_through, is_aligned, from_last_level};
ghost use Rattle.sv32_space.specs.Walk.{from_large_leaf, from_pointer, from_root, walk_of, vpn_1};

use crate::tables::entry_word;
use phys_pages::Ram;
use xk_base::limits::PAGE_SIZE;
use xk_base::{Access, Frame};

/// Where a walk ends.
#[derive(Clone, Copy, Debug, PartialEq, Eq)]
pub enum Walked {
    /// At this physical address, which has at most 34 bits.
    Reaches(u64),
    PageFault,
}

const V: u32 = 0;

const R: u32 = 1;

const W: u32 = 2;

const X: u32 = 3;

const U: u32 = 4;

const A: u32 = 6;

const D: u32 = 7;

fn has_flag(entry: u32, k: u32) -> bool
    requires { k < 32 }
    ensures { result ≡ flag entry k }
{
    (entry >> k) % 2 == 1
}

fn valid_entry(entry: u32) -> bool
    ensures { result ≡ is_valid entry }
{
    has_flag(entry, V) && (has_flag(entry, R) || !has_flag(entry, W))
}

fn leaf_entry(entry: u32) -> bool
    ensures { result ≡ is_leaf entry }
{
    has_flag(entry, R) || has_flag(entry, X)
}

// Whether a leaf lets a process access its page.
fn lets_in(entry: u32, access: Access) -> bool
    ensures { result ≡ lets_through entry access }
{
    let is_allowed = match access {
        Access::Fetch => has_flag(entry, X),
        Access::Load => has_flag(entry, R),
        Access::Store => has_flag(entry, W) && has_flag(entry, D),
    };
    has_flag(entry, U) && has_flag(entry, A) && is_allowed
}

// The entry at an index of the table in a page; `None` outside RAM.
#[tactic(auto, using(phys_pages::proofs::WordLemmas::word_places))]
fn table_entry(ram: &Ram, ppn: u32, index: u32) -> Option<u32>
    requires { index < 1024 }
    ensures { result ≡ entry_in_table ram.now ppn index }
{
    match ram.frame_of(ppn) {
        Some(f) => Some(entry_word(ram.page(f), index)),
        None => None,
    }
}

fn walk_last(entry: u32, va: u32, access: Access) -> Walked
    ensures { result ≡ from_last_level entry va access }
{
    if valid_entry(entry) && leaf_entry(entry) && lets_in(entry, access) {
        Walked::Reaches((entry / 1024) as u64 * PAGE_SIZE as u64 + (va % PAGE_SIZE) as u64)
    } else {
        Walked::PageFault
    }
}

fn walk_large(entry: u32, va: u32, access: Access) -> Walked
    ensures { result ≡ from_large_leaf entry va access }
{
    if lets_in(entry, access) && entry / 1024 % 1024 == 0 {
        Walked::Reaches((entry / 1024) as u64 * PAGE_SIZE as u64 + (va % 0x40_0000) as u64)
    } else {
        Walked::PageFault
    }
}

fn walk_pointer(ram: &Ram, entry: u32, va: u32, access: Access) -> Walked
    ensures { result ≡ from_pointer ram.now entry va access }
{
    match table_entry(ram, entry / 1024, va / PAGE_SIZE % 1024) {
        Some(last) => walk_last(last, va, access),
        None => Walked::PageFault,
    }
}

fn walk_root(ram: &Ram, entry: u32, va: u32, access: Access) -> Walked
    ensures { result ≡ from_root ram.now entry va access }
{
    if !valid_entry(entry) {
        return Walked::PageFault;
    }
    if leaf_entry(entry) {
        return walk_large(entry, va, access);
    }
    if has_flag(entry, U) || has_flag(entry, A) || has_flag(entry, D) {
        return Walked::PageFault;
    }
    walk_pointer(ram, entry, va, access)
}

// The entry of a root table that a virtual address selects; `None` where the table isn't in RAM.
#[tactic(auto, using(crate::proofs::WalkLemmas::no_entry_outside))]
fn root_entry(ram: &Ram, root: Frame, va: u32) -> Option<u32>
    ensures { result ≡ entry_in_table ram.now (ppn_of (area ram.now) root.0) (vpn_1 va) }
{
    if root.0 >= ram.frames() {
        return None;
    }
    table_entry(ram, ram.ppn_of(root), va / 0x40_0000)
}

#[tactic(auto, unfolding(crate::specs::Walk::walk_of))]
fn walk_tables(ram: &Ram, root: Frame, va: u32, access: Access) -> Walked
    ensures { result ≡ walk_of ram.now root.0 va access }
{
    match root_entry(ram, root, va) {
        Some(entry) => walk_root(ram, entry, va, access),
        None => Walked::PageFault,
    }
}

/// Where a process with this root table reaches at a virtual address: the walk of Sv32 in user mode
/// (RISC-V Privileged, 4.3.2) on the bytes of RAM. A table outside RAM is a page fault.
#[tactic(auto, using(crate::proofs::ReachLemmas::walk_by_entry, crate::proofs::ReachLemmas::walk_outside))]
pub fn walk(ram: &Ram, root: Frame, va: u32, access: Access) -> Walked
    ensures is { result ≡ walk_of ram.now root.0 va access }
    // in a made space it leads where the entry of the place says ..
    ensures entry { (procs : ℕ) (q : Place) (entry : Entry) → IsMade ram.now q.pid.0 → root_at q.pid.0 ≡ root.0 → q.vpn.0 ≡ va / 4096
        → entries procs ram.now q ≡ Some entry → result ≡ entry_reach (area ram.now) entry (va % 4096) access }
    // .. and nowhere outside the windows
    ensures outside { (pid : ℕ) → IsMade ram.now pid → root_at pid ≡ root.0 → window_at (va / 4096) ≡ None → result ≡ PageFault }
{
    // For the prover: RAM starts at a page and ends below the console.
    let _frames = ram.frames();
    walk_tables(ram, root, va, access)
}
