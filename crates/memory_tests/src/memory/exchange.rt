//! Two processes of three pages each, in two frames: each access brings a page in, and another one
//! goes out. The store has a slot for each page past the frames, so the plan has as many pages as
//! the machine has room for.

ghost use Rattle.boot_plan.specs.Lawful.{IsLawfulPlan};
ghost use Rattle.ledger_model.specs.Loans.{IsFresh, loans};
ghost use Rattle.std.specs.Prelude.{◌≡◌, ◌+◌, ◌<◌, ◌≤◌, [], ◌∷◌, length, IfOk, OnOk};
ghost use Rattle.vm_memory.specs.Memory.{IsUsable, ledger};
ghost use Rattle.vm_memory.specs.Sound.{IsSound};
ghost use Rattle.xk_base.specs.declared.ids.Number.{Number};

use super::WRITE;
use super::accesses::Does::{Load, Store};
use super::accesses::{Try, user_attempt};
use crate::expecting::expect_eq;
use boot_plan::{BootPlan, PagePlan, ProcPlan};
use std::alloc::Global;
use std::process::Abort;
use sv32_space::{Walked, root_of, walk};
use vm_memory::{BootError, BootFault, Here, Memory};
use xk_base::Stored::Done;
use xk_base::Width::Word;
use xk_base::{Access, Failed, NoMemory, Number, Pid, Place, Row, Vpn};
use xk_ports::{MemStore, SwapStore};

// The pages of each process; the first byte of each is its own, the rest zeros.
const VPNS: [u32; 3] = [0x10, 0x2_0000, 0x7_FFFF];

// Page k of the six.
fn place(k: u32) -> Place
    requires { k < 6 }
    ensures pid { 2 ≤ result.pid.0 }
    ensures vpn { result.vpn.0 < 1048576 }
{
    let (pid, i) = if k < 3 { (2, k) } else { (3, k - 3) };
    Place {
        pid: Pid(pid),
        vpn: Vpn(VPNS[i as usize]),
    }
}

fn page(vpn: u32, from: u32) -> PagePlan
    ensures { result ≡ record { vpn = record { 0 = vpn }; right = WRITE; from = from; len = 1 } }
{
    PagePlan {
        vpn: Vpn(vpn),
        right: WRITE,
        from,
        len: 1,
    }
}

// A process whose pages begin with three bytes of the file, from this one on.
fn process(alloc: Global, from: u32) -> Result<ProcPlan, NoMemory>
    requires { from ≤ 3 }
    ensures { IfOk result (λ process. process.pages ≡ record { vpn = record { 0 = 16 }; right = WRITE; from = from; len = 1 }
        ∷ record { vpn = record { 0 = 131072 }; right = WRITE; from = from + 1; len = 1 }
        ∷ record { vpn = record { 0 = 524287 }; right = WRITE; from = from + 2; len = 1 } ∷ []) }
{
    let mut pages = Row::new(alloc);
    pages.push(page(0x10, from))?;
    pages.push(page(0x2_0000, from + 1))?;
    pages.push(page(0x7_FFFF, from + 2))?;
    Ok(ProcPlan {
        entry: 0x1_0000,
        sections: 1,
        pages,
    })
}

// 42 frames of tables, two for pages and the one that is always free.
fn plan(alloc: Global) -> Result<BootPlan, NoMemory>
    ensures lawful { IfOk result (λ plan. IsLawfulPlan 6 plan) }
    ensures slots { IfOk result (λ plan. plan.slots ≡ 4) }
{
    let mut procs = Row::new(alloc);
    procs.push(process(alloc, 0)?)?;
    procs.push(process(alloc, 3)?)?;
    Ok(BootPlan {
        ram_start: 0x4000_0000,
        frames: 45,
        slots: 4,
        procs,
    })
}

#[tactic(auto, using(vm_memory::proofs::Booting::FirstLoanLemmas::first_fresh))]
pub(super) fn booted<W: SwapStore>(alloc: Global, store: W) -> Result<Memory<W>, BootFault<W>>
    requires { 4 ≤ W.slot_count store }
    ensures sound { IfOk result (λ m. IsSound W.slot_count m) }
    ensures usable { IfOk result (λ m. IsUsable m) }
    ensures no_loan { IfOk result (λ m. (number : Number) → IsFresh (loans (ledger W.held m)) number) }
{
    let Ok(plan) = plan(alloc) else {
        return Err(BootFault {
            why: BootError::NoMemory,
            store,
        });
    };
    Memory::boot(alloc, &plan, &[1, 2, 3, 4, 5, 6], store)
}

// The first byte of the frame where the walk leads, if it leads anywhere: else the page is out.
fn byte_in<W: SwapStore>(memory: &Memory<W>, at: Place) -> Option<u8>
    requires sound { IsSound W.slot_count memory.now }
    requires process { 2 ≤ at.pid.0 }
    requires page { at.vpn.0 < 1048576 }
{
    let ram = memory.ram();
    let Walked::Reaches(pa) = walk(ram, root_of(at.pid), at.vpn.0 * 4096, Access::Load) else {
        return None;
    };
    let ppn = u32::try_from(pa / 4096).ok()?;
    Some(ram.page(ram.frame_of(ppn)?)[0])
}

// A page is out, comes in with its word, and gets another one.
fn turn<W: SwapStore>(
    rt: &impl Abort,
    memory: &mut Memory<W>,
    at: Place,
    bytes: (u8, u8),
) -> Result<(), Failed>
    requires sound { IsSound W.slot_count memory.old }
    requires usable { IsUsable memory.old }
    requires process { 2 ≤ at.pid.0 }
    requires page { at.vpn.0 < 1048576 }
    ensures sound { IsSound W.slot_count memory.new }
    ensures usable { OnOk result (IsUsable memory.new) }
    ensures loans { loans (ledger W.held memory.new) ≡ loans (ledger W.held memory.old) }
{
    let (old, new) = bytes;
    expect_eq(rt, byte_in(memory, at), None);
    let va = at.vpn.0 * 4096;
    user_attempt(rt, memory, at.pid, Try(va, Word, Load(Some(old as u32))))?;
    expect_eq(rt, byte_in(memory, at), Some(old));
    user_attempt(rt, memory, at.pid, Try(va, Word, Store(new as u32, Done)))?;
    expect_eq(rt, byte_in(memory, at), Some(new));
    Ok(())
}

// Each page in turn. Page k has `old + k`, then `new + k`.
fn round<W: SwapStore>(
    rt: &impl Abort,
    memory: &mut Memory<W>,
    old: u8,
    new: u8,
) -> Result<(), Failed>
    requires sound { IsSound W.slot_count memory.old }
    requires usable { IsUsable memory.old }
    requires low { old ≤ 200 }
    requires below { new ≤ 200 }
    ensures sound { IsSound W.slot_count memory.new }
    ensures usable { OnOk result (IsUsable memory.new) }
    ensures loans { loans (ledger W.held memory.new) ≡ loans (ledger W.held memory.old) }
{
    for k in 0..6 {
        turn(rt, memory, place(k), (old + k as u8, new + k as u8))?;
    }
    Ok(())
}

// All pages are there, and the bytes of those in frames are those of one of the rounds.
fn as_before<W: SwapStore>(rt: &impl Abort, memory: &Memory<W>)
    requires sound { IsSound W.slot_count memory.now }
{
    expect_eq(rt, (memory.pages(), memory.cap()), (6, 6));
    for k in 0..6 {
        let own = Here::Own {
            right: WRITE,
            console: false,
            loan: None,
        };
        expect_eq(rt, memory.at(place(k)), own);
        let k = k as u8;
        let is_known = match byte_in(memory, place(k as u32)) {
            None => true,
            Some(byte) => [1 + k, 11 + k, 21 + k].contains(&byte),
        };
        expect_eq(rt, is_known, true);
    }
}

// How far a machine comes.
#[derive(Clone, Copy, Debug, PartialEq, Eq)]
enum End {
    Unprepared,
    NotBooted,
    Failed,
    Done,
}

fn rounds<W: SwapStore>(rt: &impl Abort, memory: &mut Memory<W>) -> Result<(), Failed>
    requires sound { IsSound W.slot_count memory.old }
    requires usable { IsUsable memory.old }
    ensures sound { IsSound W.slot_count memory.new }
    ensures loans { loans (ledger W.held memory.new) ≡ loans (ledger W.held memory.old) }
{
    round(rt, memory, 1, 11)?;
    round(rt, memory, 11, 21)
}

// The machine with this store, and the store that it hands back.
fn run(rt: &impl Abort, alloc: Global, mut store: MemStore) -> (End, MemStore) {
    if store.prepare(alloc, 4, None).is_err() {
        return (End::Unprepared, store);
    }
    match booted(alloc, store) {
        Err(fault) => {
            expect_eq(rt, fault.why, BootError::SwapFault);
            (End::NotBooted, fault.store)
        }
        Ok(mut memory) => {
            let done = rounds(rt, &mut memory);
            as_before(rt, &memory);
            let end = if done.is_ok() { End::Done } else { End::Failed };
            (end, memory.close())
        }
    }
}

// The calls of the store: `prepare`, one for each page of the plan past the frames, and two for
// each access of a page that is out.
fn expected(failing: u64) -> End {
    match failing {
        0 => End::Done,
        1 => End::Unprepared,
        2..=5 => End::NotBooted,
        6..=29 => End::Failed,
        _ => End::Done,
    }
}

// Each call of the store fails once; 0 and 30 are the numbers of none.
#[test]
fn pages_go_out_and_come_in(rt: HostRuntime) {
    for failing in 0..31 {
        let fails = vec![in rt.alloc(); failing].expect(&rt, "memory");
        let (end, store) = run(&rt, rt.alloc(), MemStore::new(fails));
        expect_eq(&rt, (failing, end), (failing, expected(failing)));
        expect_eq(&rt, store.preparations().len(), 1);
        expect_eq(&rt, store.slots(), if failing == 1 { 0 } else { 4 });
    }
}
