//! Accesses of a process, as rows: what each asks for, and what it is to answer.

ghost use Rattle.ledger_model.specs.Loans.{loans};
ghost use Rattle.std.specs.Prelude.{◌≡◌, ◌%◌, IfOk, OnOk};
ghost use Rattle.vm_memory.specs.Memory.{IsUsable, ledger, size};
ghost use Rattle.vm_memory.specs.Sound.{IsSound};
ghost use Rattle.vm_memory.specs.Using.Known.{Remembers};
ghost use Rattle.xk_base.specs.UserMemory.{size_of};

use super::PID;
use crate::expecting::expect_eq;
use std::process::Abort;
use vm_memory::{KnownPages, KnownUser, Memory, User};
use xk_base::{Failed, Pid, Stored, UserMemory, Width};
use xk_ports::SwapStore;

/// What a process does at an address, with what it is told.
#[derive(Clone, Copy)]
pub enum Does {
    Fetch(Option<u32>),
    Load(Option<u32>),
    /// Stores the low bytes of a number.
    Store(u32, Stored),
}

/// An access at an address that is aligned to its width.
#[derive(Clone, Copy)]
pub struct Try(pub u32, pub Width, pub Does);

fn expect_aligned(rt: &impl Abort, va: u32, width: Width)
    ensures { va % size_of width ≡ 0 }
{
    match width {
        Width::Byte => {}
        Width::Half => assert!(rt; va % 2 == 0),
        Width::Word => assert!(rt; va % 4 == 0),
    }
}

// The access is told what it is to be told; a store, where the process may store.
fn attempt<U: UserMemory>(rt: &impl Abort, user: &mut U, row: Try) -> Result<(), Failed>
    requires fit { U.fit user.old }
    ensures fit { IfOk result (λ _. U.fit user.new) }
    ensures rest { U.same_rest user.old user.new }
{
    let Try(va, width, does) = row;
    match does {
        Does::Fetch(wanted) => {
            expect_aligned(rt, va, Width::Word);
            expect_eq(rt, user.fetch(va)?, wanted);
        }
        Does::Load(wanted) => {
            expect_aligned(rt, va, width);
            expect_eq(rt, user.load(va, width)?, wanted);
        }
        Does::Store(number, wanted) => {
            expect_aligned(rt, va, width);
            let may = user.can_store(va, width);
            expect_eq(rt, may, (wanted != Stored::Fault));
            expect_eq(rt, user.store(va, width, number)?, wanted);
        }
    }
    Ok(())
}

/// An access of a process.
pub fn user_attempt<W: SwapStore>(
    rt: &impl Abort,
    memory: &mut Memory<W>,
    pid: Pid,
    row: Try,
) -> Result<(), Failed>
    requires sound { IsSound W.slot_count memory.old }
    requires usable { IsUsable memory.old }
    ensures sound { IsSound W.slot_count memory.new }
    ensures usable { OnOk result (IsUsable memory.new) }
    ensures loans { loans (ledger W.held memory.new) ≡ loans (ledger W.held memory.old) }
    ensures size { size memory.new ≡ size memory.old }
{
    let mut user = User { mem: memory, pid };
    let done = attempt(rt, &mut user, row);
    let User { mem: _, pid: _ } = user;
    done
}

/// Accesses of a process, one after the other.
pub fn user_attempts<W: SwapStore>(
    rt: &impl Abort,
    memory: &mut Memory<W>,
    pid: Pid,
    rows: &[Try],
) -> Result<(), Failed>
    requires sound { IsSound W.slot_count memory.old }
    requires usable { IsUsable memory.old }
    ensures sound { IsSound W.slot_count memory.new }
    ensures usable { OnOk result (IsUsable memory.new) }
    ensures loans { loans (ledger W.held memory.new) ≡ loans (ledger W.held memory.old) }
    ensures size { size memory.new ≡ size memory.old }
{
    for row in rows {
        user_attempt(rt, memory, pid, *row)?;
    }
    Ok(())
}

fn known_attempt<W: SwapStore>(
    rt: &impl Abort,
    memory: &mut Memory<W>,
    known: &mut KnownPages,
    row: Try,
) -> Result<(), Failed>
    requires sound { IsSound W.slot_count memory.old }
    requires usable { IsUsable memory.old }
    requires known { Remembers memory.old PID known.old }
    ensures sound { IsSound W.slot_count memory.new }
    ensures usable { OnOk result (IsUsable memory.new) }
    ensures known { Remembers memory.new PID known.new }
    ensures loans { loans (ledger W.held memory.new) ≡ loans (ledger W.held memory.old) }
    ensures size { size memory.new ≡ size memory.old }
{
    let mut user = KnownUser {
        mem: memory,
        pid: PID,
        known: *known,
    };
    let done = attempt(rt, &mut user, row);
    let KnownUser {
        mem: _,
        pid: _,
        known: now,
    } = user;
    *known = now;
    done
}

/// Accesses of process 2, which knows from each where its pages are.
#[tactic(auto, using(vm_memory::proofs::Using::KnownPageLemmas::remembers_none))]
pub fn known_attempts<W: SwapStore>(
    rt: &impl Abort,
    memory: &mut Memory<W>,
    rows: &[Try],
) -> Result<(), Failed>
    requires sound { IsSound W.slot_count memory.old }
    requires usable { IsUsable memory.old }
    ensures sound { IsSound W.slot_count memory.new }
    ensures usable { OnOk result (IsUsable memory.new) }
    ensures loans { loans (ledger W.held memory.new) ≡ loans (ledger W.held memory.old) }
    ensures size { size memory.new ≡ size memory.old }
{
    let mut known = KnownPages::new();
    for row in rows {
        known_attempt(rt, memory, &mut known, *row)?;
    }
    Ok(())
}
