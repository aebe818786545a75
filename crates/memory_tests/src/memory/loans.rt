//! Two pages on loan between two processes, with accesses of both sides.

ghost use Rattle.boot_plan.specs.Lawful.{IsLawfulPlan};
ghost use Rattle.ledger_model.specs.Loans.{IsFresh, Stands, loans};
ghost use Rattle.loan_flags.specs.Sending.{mem_kind};
ghost use Rattle.std.specs.Prelude.{◌≡◌, ◌≢◌, ◌/◌, [], ◌∷◌, length, is_some, IfNone, IfOk, IfSome, IsTrue, OnOk};
ghost use Rattle.vm_memory.specs.Memory.{IsUsable, ledger, processes};
ghost use Rattle.vm_memory.specs.Sound.{IsSound};
ghost use Rattle.xk_base.specs.declared.ids.Number.{Number};

use super::WRITE;
use super::accesses::Does::{Load, Store};
use super::accesses::{Try, user_attempts};
use super::calls::make;
use crate::expecting::expect_eq;
use boot_plan::{BootPlan, PagePlan, ProcPlan};
use loan_flags::Loan;
use std::alloc::Global;
use std::process::Abort;
use sv32_space::{Walked, root_of, walk};
use vm_memory::laws::found_run_takes_pages;
use vm_memory::{BootError, BootFault, Here, Memory};
use xk_base::Stored::{Done, Fault};
use xk_base::Width::Word;
use xk_base::{Access, Failed, LoanKind, MemKind, NoMemory, Number, Pid, Place, Row, Vpn, Window};
use xk_ports::{SureStore, SwapStore};

const HOLDER: Pid = Pid(2);

const LENDER: Pid = Pid(3);

const ONE: Number = Number(1);

// The lender's two pages, and where the holder has them.
const FROM: u32 = 0x2000_0000;

const TO: u32 = 0x4000_0000;

fn place(pid: Pid, va: u32) -> Place
    ensures { result ≡ record { pid = pid; vpn = record { 0 = va / 4096 } } }
{
    Place {
        pid,
        vpn: Vpn(va / 4096),
    }
}

// A process with these pages, from the start of a file of 88 bytes.
fn process(alloc: Global, first: u32, second: u32) -> Result<ProcPlan, NoMemory>
    ensures { IfOk result (λ process. process.pages ≡ record { vpn = record { 0 = first }; right = WRITE; from = 0; len = 88 }
        ∷ record { vpn = record { 0 = second }; right = WRITE; from = 0; len = 0 } ∷ []) }
{
    let mut pages = Row::new(alloc);
    pages.push(PagePlan {
        vpn: Vpn(first),
        right: WRITE,
        from: 0,
        len: 88,
    })?;
    pages.push(PagePlan {
        vpn: Vpn(second),
        right: WRITE,
        from: 0,
        len: 0,
    })?;
    Ok(ProcPlan {
        entry: 0x1_0000,
        sections: 1,
        pages,
    })
}

// The holder has two pages of its stack, the lender two of its heap.
fn plan(alloc: Global) -> Result<BootPlan, NoMemory>
    ensures lawful { IfOk result (λ plan. IsLawfulPlan 88 plan) }
    ensures two { IfOk result (λ plan. length plan.procs ≡ 2) }
    ensures slots { IfOk result (λ plan. plan.slots ≡ 0) }
{
    let mut procs = Row::new(alloc);
    procs.push(process(alloc, 0x7_FFFE, 0x7_FFFF)?)?;
    procs.push(process(alloc, 0x2_0000, 0x2_0001)?)?;
    Ok(BootPlan {
        ram_start: 0x4000_0000,
        frames: 64,
        slots: 0,
        procs,
    })
}

#[tactic(auto, using(vm_memory::proofs::Booting::FirstLoanLemmas::first_fresh))]
fn booted<W: SwapStore>(alloc: Global, store: W) -> Result<Memory<W>, BootFault<W>>
    ensures sound { IfOk result (λ m. IsSound W.slot_count m) }
    ensures usable { IfOk result (λ m. IsUsable m) }
    ensures two { IfOk result (λ m. processes m ≡ 2) }
    ensures no_loan { IfOk result (λ m. (number : Number) → IsFresh (loans (ledger W.held m)) number) }
{
    let Ok(plan) = plan(alloc) else {
        return Err(BootFault {
            why: BootError::NoMemory,
            store,
        });
    };
    Memory::boot(alloc, &plan, &[0x77; 88], store)
}

fn sent_as(kind: LoanKind) -> MemKind
    ensures { result ≡ mem_kind kind }
{
    match kind {
        LoanKind::Shared => MemKind::Lend,
        LoanKind::Exclusive => MemKind::LendMut,
    }
}

// The lender lends both pages, to where the holder's Message window begins.
#[tactic(auto, using(crate::proofs::UnlentLemmas::lent_alone))]
fn lent<W: SwapStore>(memory: &mut Memory<W>, kind: LoanKind) -> Option<Loan>
    requires sound { IsSound W.slot_count memory.old }
    requires usable { IsUsable memory.old }
    requires two { processes memory.old ≡ 2 }
    requires no_loan { (number : Number) → IsFresh (loans (ledger W.held memory.old)) number }
    ensures sound { IsSound W.slot_count memory.new }
    ensures usable { IsUsable memory.new }
    ensures two { processes memory.new ≡ 2 }
    ensures lender { IfSome result (λ loan. IsTrue (is_some loan.lender)) }
    ensures stands { IfSome result (λ loan. Stands (loans (ledger W.held memory.new)) loan) }
    ensures alone { IfSome result (λ loan. (number : Number) → number ≢ loan.number → IsFresh (loans (ledger W.held memory.new)) number) }
    ensures none { IfNone result ((number : Number) → IsFresh (loans (ledger W.held memory.new)) number) }
{
    found_run_takes_pages();
    let vpn = memory.free_run(HOLDER, Window::Message, 2)?;
    let from = place(LENDER, FROM);
    memory.may_send(from, 2, sent_as(kind)).ok()?;
    let to = Place { pid: HOLDER, vpn };
    Some(memory.lend(from, 2, to, kind, ONE))
}

/// What both sides do, the lender first.
#[derive(Clone, Copy)]
struct Sides<'a> {
    lender: &'a [Try],
    holder: &'a [Try],
}

fn both<W: SwapStore>(rt: &impl Abort, memory: &mut Memory<W>, sides: &Sides) -> Result<(), Failed>
    requires sound { IsSound W.slot_count memory.old }
    requires usable { IsUsable memory.old }
    requires two { processes memory.old ≡ 2 }
    ensures sound { IsSound W.slot_count memory.new }
    ensures usable { OnOk result (IsUsable memory.new) }
    ensures two { processes memory.new ≡ 2 }
    ensures loans { loans (ledger W.held memory.new) ≡ loans (ledger W.held memory.old) }
{
    user_attempts(rt, memory, LENDER, sides.lender)?;
    user_attempts(rt, memory, HOLDER, sides.holder)
}

/// The lender stores a word in each page.
const BEFORE: Sides = Sides {
    lender: &[
        Try(FROM, Word, Store(0x1234_5678, Done)),
        Try(FROM + 0x1FFC, Word, Store(0x9ABC_DEF0, Done)),
    ],
    holder: &[Try(TO, Word, Load(None))],
};

/// Pages that are lent are loaded from by both, and neither stores.
const SHARED: Sides = Sides {
    lender: &[
        Try(FROM, Word, Load(Some(0x1234_5678))),
        Try(FROM + 0x1FFC, Word, Store(1, Fault)),
    ],
    holder: &[
        Try(TO, Word, Load(Some(0x1234_5678))),
        Try(TO + 0x1FFC, Word, Load(Some(0x9ABC_DEF0))),
        Try(TO, Word, Store(1, Fault)),
    ],
};

/// Pages that are lent mutably the holder has alone ..
const EXCLUSIVE: Sides = Sides {
    lender: &[
        Try(FROM, Word, Load(None)),
        Try(FROM, Word, Store(1, Fault)),
    ],
    holder: &[
        Try(TO, Word, Load(Some(0x1234_5678))),
        Try(TO + 0x1FFC, Word, Store(0x0BAD_CAFE, Done)),
    ],
};

/// After a loan the pages are the lender's alone.
const AFTER_SHARED: Sides = Sides {
    lender: &[
        Try(FROM, Word, Load(Some(0x1234_5678))),
        Try(FROM + 0x1FFC, Word, Load(Some(0x9ABC_DEF0))),
        Try(FROM + 0x1FFC, Word, Store(2, Done)),
    ],
    holder: &[
        Try(TO + 0x1FFC, Word, Load(None)),
        Try(TO + 0x1FFC, Word, Store(1, Fault)),
    ],
};

/// .. and what it stored comes back.
const AFTER_EXCLUSIVE: Sides = Sides {
    lender: &[
        Try(FROM, Word, Load(Some(0x1234_5678))),
        Try(FROM + 0x1FFC, Word, Load(Some(0x0BAD_CAFE))),
        Try(FROM + 0x1FFC, Word, Store(2, Done)),
    ],
    holder: &[
        Try(TO + 0x1FFC, Word, Load(None)),
        Try(TO + 0x1FFC, Word, Store(1, Fault)),
    ],
};

// The pages are lent while both sides make their accesses.
#[tactic(auto, using(crate::proofs::UnlentLemmas::ended_none))]
fn while_lent<W: SwapStore>(
    rt: &impl Abort,
    memory: &mut Memory<W>,
    kind: LoanKind,
    sides: &Sides,
) -> Result<(), Failed>
    requires sound { IsSound W.slot_count memory.old }
    requires usable { IsUsable memory.old }
    requires two { processes memory.old ≡ 2 }
    requires no_loan { (number : Number) → IsFresh (loans (ledger W.held memory.old)) number }
    ensures sound { IsSound W.slot_count memory.new }
    ensures usable { OnOk result (IsUsable memory.new) }
    ensures two { processes memory.new ≡ 2 }
    ensures no_loan { (number : Number) → IsFresh (loans (ledger W.held memory.new)) number }
{
    let Some(loan) = lent(memory, kind) else {
        panic!(rt; "no loan");
    };
    let here = Here::Lent {
        kind,
        lender: Some(place(LENDER, FROM + 0x1000)),
        number: ONE,
    };
    expect_eq(rt, memory.at(place(HOLDER, TO + 0x1000)), here);
    let done = both(rt, memory, sides);
    memory.end_loan(loan);
    expect_eq(rt, memory.at(place(HOLDER, TO)), Here::Nothing);
    done
}

// Pages are lent, and are the lender's before and after.
fn lend_script<W: SwapStore>(
    rt: &impl Abort,
    memory: &mut Memory<W>,
    kind: LoanKind,
    rows: (&Sides, &Sides),
) -> Result<(), Failed>
    requires sound { IsSound W.slot_count memory.old }
    requires usable { IsUsable memory.old }
    requires two { processes memory.old ≡ 2 }
    requires no_loan { (number : Number) → IsFresh (loans (ledger W.held memory.old)) number }
    ensures sound { IsSound W.slot_count memory.new }
    ensures no_loan { (number : Number) → IsFresh (loans (ledger W.held memory.new)) number }
{
    let (lent, after) = rows;
    both(rt, memory, &BEFORE)?;
    while_lent(rt, memory, kind, lent)?;
    both(rt, memory, after)
}

fn run(rt: &impl Abort, alloc: Global, kind: LoanKind, rows: (&Sides, &Sides)) {
    match booted(alloc, SureStore::new()) {
        Ok(mut memory) => {
            expect_eq(rt, lend_script(rt, &mut memory, kind, rows).is_ok(), true);
            let _ = memory.close();
        }
        Err(_) => panic!(rt; "not booted"),
    }
}

#[test]
fn lent_pages_are_read_by_both(rt: HostRuntime) {
    run(&rt, rt.alloc(), LoanKind::Shared, (&SHARED, &AFTER_SHARED));
}

#[test]
fn mutably_lent_pages_are_the_holders(rt: HostRuntime) {
    run(
        &rt,
        rt.alloc(),
        LoanKind::Exclusive,
        (&EXCLUSIVE, &AFTER_EXCLUSIVE),
    );
}

/// The holder keeps the pages of a lender that is gone.
const ORPHANED: Sides = Sides {
    lender: &[Try(FROM, Word, Load(None))],
    holder: &[
        Try(TO, Word, Store(0x0BAD_CAFE, Done)),
        Try(TO, Word, Load(Some(0x0BAD_CAFE))),
    ],
};

// The lender's pages become orphans while the holder has them, and are forgotten at the end.
fn while_orphaned<W: SwapStore>(rt: &impl Abort, memory: &mut Memory<W>) -> Result<(), Failed>
    requires sound { IsSound W.slot_count memory.old }
    requires usable { IsUsable memory.old }
    requires two { processes memory.old ≡ 2 }
    requires no_loan { (number : Number) → IsFresh (loans (ledger W.held memory.old)) number }
    ensures sound { IsSound W.slot_count memory.new }
    ensures usable { OnOk result (IsUsable memory.new) }
    ensures two { processes memory.new ≡ 2 }
    ensures no_loan { (number : Number) → IsFresh (loans (ledger W.held memory.new)) number }
{
    let Some(loan) = lent(memory, LoanKind::Exclusive) else {
        panic!(rt; "no loan");
    };
    let orphans = memory.orphan(loan);
    let here = Here::Lent {
        kind: LoanKind::Exclusive,
        lender: None,
        number: ONE,
    };
    expect_eq(rt, memory.at(place(HOLDER, TO)), here);
    expect_eq(rt, memory.at(place(LENDER, FROM)), Here::Nothing);
    let done = both(rt, memory, &ORPHANED);
    expect_eq(rt, memory.pages(), 4);
    memory.end_loan(orphans);
    expect_eq(rt, memory.pages(), 2);
    done
}

/// The frames of the orphans hold zeros in the hands of another process.
const ZEROS: [Try; 3] = [
    Try(TO, Word, Load(None)),
    Try(FROM, Word, Load(Some(0))),
    Try(FROM + 0x1FFC, Word, Load(Some(0))),
];

// The new pages come to the third and fourth frame behind those of the tables, as the orphans had.
#[tactic(auto, using(crate::proofs::UnlentLemmas::fresh_unlent, crate::proofs::UnlentLemmas::unlent_then))]
fn orphan_script<W: SwapStore>(rt: &impl Abort, memory: &mut Memory<W>) -> Result<(), Failed>
    requires sound { IsSound W.slot_count memory.old }
    requires usable { IsUsable memory.old }
    requires two { processes memory.old ≡ 2 }
    requires no_loan { (number : Number) → IsFresh (loans (ledger W.held memory.old)) number }
    ensures sound { IsSound W.slot_count memory.new }
    ensures no_loan { (number : Number) → IsFresh (loans (ledger W.held memory.new)) number }
{
    both(rt, memory, &BEFORE)?;
    while_orphaned(rt, memory)?;
    let made = make(memory, Window::Heap, None, 2)?;
    expect_eq(rt, made, Ok(Vpn(0x2_0000)));
    let reached = walk(memory.ram(), root_of(HOLDER), FROM, Access::Load);
    expect_eq(rt, reached, Walked::Reaches(0x4002_C000));
    user_attempts(rt, memory, HOLDER, &ZEROS)
}

#[test]
fn orphans_are_the_holders_until_they_are_forgotten(rt: HostRuntime) {
    match booted(rt.alloc(), SureStore::new()) {
        Ok(mut memory) => {
            expect_eq(&rt, orphan_script(&rt, &mut memory).is_ok(), true);
            let _ = memory.close();
        }
        Err(_) => panic!(&rt; "not booted"),
    }
}
