//! Calls and accesses of process 2, as rows: what each asks for, and what it is to answer.

ghost use Rattle.std.specs.Prelude.{◌≡◌, ◌≤◌, true, OnOk};
ghost use Rattle.vm_memory.specs.Memory.{IsUsable, ledger, processes};
ghost use Rattle.vm_memory.specs.Sound.{IsSound};
ghost use Rattle.vm_memory.specs.Starting.{IsUnlent};
ghost use Rattle.xk_base.specs.Tables.Circle.{is_pid};

use super::accesses::{Try, known_attempts, user_attempts};
use super::{PID, WRITE, at, booted};
use crate::expecting::expect_eq;
use std::alloc::Global;
use std::process::Abort;
use sv32_space::{Walked, root_of, walk};
use vm_memory::{Here, Memory};
use xk_base::{Access, Failed, Place, Right, Vpn, Window, XousError};
use xk_ports::{SureStore, SwapStore};

/// What is answered where pages are made, and where they change.
type Made = Result<Vpn, XousError>;

type Changed = Result<(), XousError>;

/// What is seen of a memory.
#[derive(Clone, Copy)]
pub enum Shown {
    /// How many pages there are, and how many there may be.
    Pages(u32, u32),
    /// What stands at a place.
    At(Place, Here),
    /// The first page of a free run of so many.
    FreeRun(Window, u32, Option<Vpn>),
    /// Where the walk of an access leads.
    Walk(u32, Access, Walked),
}

/// A call, with what it answers.
#[derive(Clone, Copy)]
pub enum Call<'a> {
    /// Makes so many pages that can be stored to.
    Make(Window, Option<Vpn>, u32, Made),
    MakeConsole(Option<Vpn>, bool, Made),
    Reduce(u32, u32, Right, Changed),
    Remove(u32, u32, Changed),
    Clear(u32, u32, Changed),
    /// Accesses, whose pages are found by a walk at each.
    Accesses(&'a [Try]),
    /// Accesses, whose pages are found by what is known of the last ones.
    KnownAccesses(&'a [Try]),
    Shows(Shown),
}

/// Makes pages that can be stored to.
pub fn make<W: SwapStore>(
    memory: &mut Memory<W>,
    window: Window,
    place: Option<Vpn>,
    n: u32,
) -> Result<Made, Failed>
    requires sound { IsSound W.slot_count memory.old }
    requires usable { IsUsable memory.old }
    requires process { is_pid (processes memory.old) 2 ≡ true }
    requires unlent { IsUnlent (ledger W.held memory.old) }
    requires some { 1 ≤ n }
    ensures sound { IsSound W.slot_count memory.new }
    ensures usable { OnOk result (IsUsable memory.new) }
    ensures process { is_pid (processes memory.new) 2 ≡ true }
    ensures unlent { IsUnlent (ledger W.held memory.new) }
{
    memory.make(PID, window, place, n, WRITE)
}

fn make_console<W: SwapStore>(memory: &mut Memory<W>, place: Option<Vpn>, w: bool) -> Made
    requires sound { IsSound W.slot_count memory.old }
    requires usable { IsUsable memory.old }
    requires process { is_pid (processes memory.old) 2 ≡ true }
    requires unlent { IsUnlent (ledger W.held memory.old) }
    ensures sound { IsSound W.slot_count memory.new }
    ensures usable { IsUsable memory.new }
    ensures process { is_pid (processes memory.new) 2 ≡ true }
    ensures unlent { IsUnlent (ledger W.held memory.new) }
{
    memory.make_console(PID, place, w)
}

fn reduce<W: SwapStore>(memory: &mut Memory<W>, first: u32, n: u32, right: Right) -> Changed
    requires sound { IsSound W.slot_count memory.old }
    requires usable { IsUsable memory.old }
    requires process { is_pid (processes memory.old) 2 ≡ true }
    requires unlent { IsUnlent (ledger W.held memory.old) }
    ensures sound { IsSound W.slot_count memory.new }
    ensures usable { IsUsable memory.new }
    ensures process { is_pid (processes memory.new) 2 ≡ true }
    ensures unlent { IsUnlent (ledger W.held memory.new) }
{
    memory.reduce_run(at(first), n, right)
}

fn remove<W: SwapStore>(memory: &mut Memory<W>, first: u32, n: u32) -> Changed
    requires sound { IsSound W.slot_count memory.old }
    requires usable { IsUsable memory.old }
    requires process { is_pid (processes memory.old) 2 ≡ true }
    requires unlent { IsUnlent (ledger W.held memory.old) }
    ensures sound { IsSound W.slot_count memory.new }
    ensures usable { IsUsable memory.new }
    ensures process { is_pid (processes memory.new) 2 ≡ true }
    ensures unlent { IsUnlent (ledger W.held memory.new) }
{
    memory.remove_run(at(first), n)
}

fn clear<W: SwapStore>(memory: &mut Memory<W>, first: u32, n: u32) -> Changed
    requires sound { IsSound W.slot_count memory.old }
    requires usable { IsUsable memory.old }
    requires process { is_pid (processes memory.old) 2 ≡ true }
    requires unlent { IsUnlent (ledger W.held memory.old) }
    ensures sound { IsSound W.slot_count memory.new }
    ensures usable { IsUsable memory.new }
    ensures process { is_pid (processes memory.new) 2 ≡ true }
    ensures unlent { IsUnlent (ledger W.held memory.new) }
{
    memory.clear_run(at(first), n)
}

#[tactic(auto, using(crate::proofs::UnlentLemmas::still_unlent))]
fn accesses<W: SwapStore>(
    rt: &impl Abort,
    memory: &mut Memory<W>,
    rows: &[Try],
    is_known: bool,
) -> Result<(), Failed>
    requires sound { IsSound W.slot_count memory.old }
    requires usable { IsUsable memory.old }
    requires process { is_pid (processes memory.old) 2 ≡ true }
    requires unlent { IsUnlent (ledger W.held memory.old) }
    ensures sound { IsSound W.slot_count memory.new }
    ensures usable { OnOk result (IsUsable memory.new) }
    ensures process { is_pid (processes memory.new) 2 ≡ true }
    ensures unlent { IsUnlent (ledger W.held memory.new) }
{
    if is_known {
        known_attempts(rt, memory, rows)
    } else {
        user_attempts(rt, memory, PID, rows)
    }
}

// The memory shows what it is to show.
fn shows<W: SwapStore>(rt: &impl Abort, memory: &Memory<W>, shown: Shown)
    requires sound { IsSound W.slot_count memory.now }
    requires usable { IsUsable memory.now }
    requires process { is_pid (processes memory.now) 2 ≡ true }
{
    match shown {
        Shown::Pages(pages, cap) => expect_eq(rt, (memory.pages(), memory.cap()), (pages, cap)),
        Shown::At(place, here) => expect_eq(rt, memory.at(place), here),
        Shown::FreeRun(window, n, first) => {
            expect_eq(rt, memory.free_run(PID, window, n.max(1)), first);
        }
        Shown::Walk(va, access, to) => {
            expect_eq(rt, walk(memory.ram(), root_of(PID), va, access), to);
        }
    }
}

// The call is told what it is to be told.
fn ask<W: SwapStore>(rt: &impl Abort, memory: &mut Memory<W>, row: Call) -> Result<(), Failed>
    requires sound { IsSound W.slot_count memory.old }
    requires usable { IsUsable memory.old }
    requires process { is_pid (processes memory.old) 2 ≡ true }
    requires unlent { IsUnlent (ledger W.held memory.old) }
    ensures sound { IsSound W.slot_count memory.new }
    ensures usable { OnOk result (IsUsable memory.new) }
    ensures process { is_pid (processes memory.new) 2 ≡ true }
    ensures unlent { IsUnlent (ledger W.held memory.new) }
{
    match row {
        Call::Make(window, place, n, told) => {
            expect_eq(rt, make(memory, window, place, n.max(1))?, told);
        }
        Call::MakeConsole(place, w, told) => expect_eq(rt, make_console(memory, place, w), told),
        Call::Reduce(first, n, right, told) => {
            expect_eq(rt, reduce(memory, first, n, right), told);
        }
        Call::Remove(first, n, told) => expect_eq(rt, remove(memory, first, n), told),
        Call::Clear(first, n, told) => expect_eq(rt, clear(memory, first, n), told),
        Call::Accesses(rows) => accesses(rt, memory, rows, false)?,
        Call::KnownAccesses(rows) => accesses(rt, memory, rows, true)?,
        Call::Shows(shown) => shows(rt, memory, shown),
    }
    Ok(())
}

/// Calls for process 2, one after the other.
fn calls<W: SwapStore>(rt: &impl Abort, memory: &mut Memory<W>, rows: &[Call]) -> Result<(), Failed>
    requires sound { IsSound W.slot_count memory.old }
    requires usable { IsUsable memory.old }
    requires process { is_pid (processes memory.old) 2 ≡ true }
    requires unlent { IsUnlent (ledger W.held memory.old) }
    ensures sound { IsSound W.slot_count memory.new }
    ensures unlent { IsUnlent (ledger W.held memory.new) }
{
    for row in rows {
        ask(rt, memory, *row)?;
    }
    Ok(())
}

/// Boots the machine and makes calls for process 2. The store never takes a page.
#[tactic(auto, using(crate::proofs::UnlentLemmas::fresh_unlent, crate::proofs::UnlentLemmas::unlent_then))]
pub fn run(rt: &impl Abort, alloc: Global, rows: &[Call]) {
    match booted(alloc, SureStore::new()) {
        Ok(mut memory) => {
            expect_eq(rt, calls(rt, &mut memory, rows), Ok(()));
            let store = memory.close();
            expect_eq(rt, store.preparations().len(), 0);
        }
        Err(_) => panic!(rt; "not booted"),
    }
}
