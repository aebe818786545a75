//! Any instruction.

ghost use Rattle.std.specs.Prelude.{◌≡◌, ◌%◌};
ghost use Rattle.xk_base.specs.UserMemory.{Memory};
ghost use Rattle.machine_model.specs.Hart.Atomics.{atomic_effect, reserves};
ghost use Rattle.machine_model.specs.Hart.Instructions.{Executed};
ghost use Rattle.rv32_hart.specs.Running.{DoesExecute, UsesMemory, view_of};
ghost use Rattle.rv32_atomics.specs.Meaning.{meaning};
ghost use Rattle.rv32_atomics.specs.Performing.{Core, DoesOrLeaves, LeavesRegistersUnlessDone, LeavesReserved, Performs, PerformsOrLeaves};
ghost use Rattle.rv32_atomics.specs.Performing.{goes_on, reserved_after};
ghost use Rattle.rv32_atomics.specs.Table.{IsInRange};

use crate::atomic::Atomic;
use crate::causes::FETCH_PAGE_FAULT;
use crate::decoding::decode_atomic;
use crate::execute::execute;
use crate::fields::fields_of;
use crate::kind::{kind_of, reserves};
use rv32_hart::{Ran, run_word};
use xk_base::{Failed, Regs, UserMemory};

/// Executes the instruction at `pc`, which is a multiple of 4, over a memory that is fit for use: an
/// atomic one itself, and any other by `run_word`. `reserved` is the address that the thread has
/// reserved.
///
/// On a trap, an ECALL and a failure the registers are as before; on a trap and an ECALL nothing is
/// reserved any more. An SC that fails makes no access. `Failed` comes only where the count of faults
/// of `mem` rose, and `mem` isn't fit then; on every other answer it stays fit.
pub fn run_any<U: UserMemory>(
    regs: &mut Regs,
    pc: u32,
    reserved: &mut Option<u32>,
    mem: &mut U,
) -> Ran
    requires aligned { pc % 4 ≡ 0 }
    requires fit { U.fit mem.old }
    ensures performs { let before = view_of U.UserMemory mem.old in
        let after = view_of U.UserMemory mem.new in
        let old : Core = record { regs = regs.old; reserved = reserved.old } in
        let new : Core = record { regs = regs.new; reserved = reserved.new } in
        Performs before after old new pc result }
    ensures leaves { LeavesRegistersUnlessDone regs.old regs.new result }
    ensures reserved { LeavesReserved reserved.old reserved.new result }
    ensures rest { U.same_rest mem.old mem.new }
    ensures uses { UsesMemory U.UserMemory mem.old mem.new result }
{
    let word = match mem.fetch(pc) {
        Ok(Some(word)) => word,
        Ok(None) => {
            *reserved = None;
            return Ran::Trap {
                cause: FETCH_PAGE_FAULT,
                value: pc,
            };
        }
        Err(Failed) => return Ran::Failed,
    };
    match decode_atomic(word) {
        Some(atomic) => perform(atomic, regs, pc, reserved, mem),
        None => {
            let before = *reserved;
            let ran = run_word(word, regs, pc, mem);
            *reserved = reserved_after(ran, before, before);
            ran
        }
    }
}

/// Executes the instruction at `pc` as `run_any` does, but leaves registers and reservation as they were
/// where the thread doesn't go on by it alone: on every answer but `Next`. So an instruction that stores
/// to a device is left, and can be executed again. What it would have left of them is in the contract.
#[inline(always)]
pub fn run_or_leave<U: UserMemory>(
    regs: &mut Regs,
    pc: u32,
    reserved: &mut Option<u32>,
    mem: &mut U,
) -> Ran
    requires aligned { pc % 4 ≡ 0 }
    requires fit { U.fit mem.old }
    ensures performs { let before = view_of U.UserMemory mem.old in
        let after = view_of U.UserMemory mem.new in
        let old : Core = record { regs = regs.old; reserved = reserved.old } in
        let new : Core = record { regs = regs.new; reserved = reserved.new } in
        PerformsOrLeaves before after old new pc result }
    ensures rest { U.same_rest mem.old mem.new }
    ensures uses { UsesMemory U.UserMemory mem.old mem.new result }
{
    match mem.fetch(pc) {
        Ok(Some(word)) => match decode_atomic(word) {
            Some(atomic) => rebuilt(perform_or_leave(atomic, regs, pc, reserved, mem)),
            // It writes no register where it stores to a device.
            None => run_word(word, regs, pc, mem),
        },
        Ok(None) => Ran::Trap {
            cause: FETCH_PAGE_FAULT,
            value: pc,
        },
        Err(Failed) => Ran::Failed,
    }
}

/// Executes an atomic instruction that stands at `pc`, with what it leaves of the reservation.
fn perform<U: UserMemory>(
    atomic: Atomic,
    regs: &mut Regs,
    pc: u32,
    reserved: &mut Option<u32>,
    mem: &mut U,
) -> Ran
    requires fields { IsInRange atomic }
    requires aligned { pc % 4 ≡ 0 }
    requires fit { U.fit mem.old }
    ensures executes { let before = view_of U.UserMemory mem.old in
        let after = view_of U.UserMemory mem.new in
        DoesExecute (λ mem. atomic_effect mem regs.old pc reserved.old (meaning atomic)) before after regs.old regs.new result }
    ensures reserved { reserved.new ≡ reserved_after result reserved.old (reserves regs.old reserved.old (meaning atomic)) }
    ensures leaves { LeavesRegistersUnlessDone regs.old regs.new result }
    ensures rest { (before : U) → U.same_rest before mem.old → U.same_rest before mem.new }
    ensures uses { UsesMemory U.UserMemory mem.old mem.new result }
{
    let before = *reserved;
    let left = reserves(kind_of(atomic), regs.get(fields_of(atomic).rs1), before);
    let ran = execute(atomic, regs, pc, before, mem);
    *reserved = reserved_after(ran, before, left);
    ran
}

/// The same, but it leaves registers and reservation as they were on every answer but `Next`: an SC or an
/// AMO that stores to a device has written rd by then.
#[inline(never)]
fn perform_or_leave<U: UserMemory>(
    atomic: Atomic,
    regs: &mut Regs,
    pc: u32,
    reserved: &mut Option<u32>,
    mem: &mut U,
) -> Ran
    requires fields { IsInRange atomic }
    requires aligned { pc % 4 ≡ 0 }
    requires fit { U.fit mem.old }
    ensures executes { let before = view_of U.UserMemory mem.old in
        let after = view_of U.UserMemory mem.new in
        let old : Core = record { regs = regs.old; reserved = reserved.old } in
        let new : Core = record { regs = regs.new; reserved = reserved.new } in
        let effect : Memory → Executed = λ mem. atomic_effect mem regs.old pc reserved.old (meaning atomic) in
        let left = reserves regs.old reserved.old (meaning atomic) in
        DoesOrLeaves (λ done. DoesExecute effect before after regs.old done.regs result
        × (done.reserved ≡ reserved_after result reserved.old left)) old new result }
    ensures rest { (before : U) → U.same_rest before mem.old → U.same_rest before mem.new }
    ensures uses { UsesMemory U.UserMemory mem.old mem.new result }
{
    let regs_before = *regs;
    let reserved_before = *reserved;
    let ran = perform(atomic, regs, pc, reserved, mem);
    if !goes_on(ran) {
        *regs = regs_before;
        *reserved = reserved_before;
    }
    ran
}

/// The same answer, built anew. `perform_or_leave` isn't inlined and writes its answer to memory; so that
/// memory isn't also where the answers of other instructions stand, which can then stay in registers.
#[inline(always)]
fn rebuilt(ran: Ran) -> Ran
    ensures { result ≡ ran }
{
    match ran {
        Ran::Next(next) => Ran::Next(next),
        Ran::Ecall => Ran::Ecall,
        Ran::Trap { cause, value } => Ran::Trap { cause, value },
        Ran::Device {
            offset,
            value,
            next,
        } => Ran::Device {
            offset,
            value,
            next,
        },
        Ran::Failed => Ran::Failed,
    }
}

/// Whether the thread goes on, and stored to no device.
fn goes_on(ran: Ran) -> bool
    ensures { result ≡ goes_on ran }
{
    match ran {
        Ran::Next(_) => true,
        Ran::Ecall | Ran::Trap { .. } | Ran::Device { .. } | Ran::Failed => false,
    }
}

/// What an answer leaves of a reservation. An instruction that doesn't trap leaves `left`.
#[inline(always)]
fn reserved_after(ran: Ran, before: Option<u32>, left: Option<u32>) -> Option<u32>
    ensures { result ≡ reserved_after ran before left }
{
    match ran {
        Ran::Next(_) | Ran::Device { .. } => left,
        Ran::Ecall | Ran::Trap { .. } => None,
        Ran::Failed => before,
    }
}
