//! The accesses of atomic instructions, each of one word.

ghost use Rattle.std.specs.Prelude.{◌≡◌, ◌%◌};
ghost use Rattle.xk_base.specs.Calls.Registers.{with_reg};
ghost use Rattle.xk_base.specs.declared.pages.Width.TheVariants.{Word};
ghost use Rattle.rv32_words.specs.Formats.{IsRegister};
ghost use Rattle.machine_model.specs.Hart.Atomics.{is_reserved, operates, result_of, stores_conditionally};
ghost use Rattle.machine_model.specs.Hart.Instructions.{following, loads};
ghost use Rattle.rv32_hart.specs.Running.{DoesExecute, UsesMemory, view_of};
ghost use Rattle.rv32_atomics.specs.Meaning.{operation_of};
ghost use Rattle.rv32_atomics.specs.Performing.{LeavesRegistersUnlessDone, puts_if_allowed};

use crate::causes::{LOAD_MISALIGNED, LOAD_PAGE_FAULT, STORE_MISALIGNED, STORE_PAGE_FAULT};
use crate::kind::{Operation, result};
use rv32_hart::Ran;
use xk_base::{Failed, Regs, Stored, UserMemory, Width};

/// The pc of the instruction that follows.
pub fn following(pc: u32) -> u32
    ensures { result ≡ following pc }
{
    pc.wrapping_add(4)
}

/// LR: loads the word at the address into `rd`.
pub fn load<U: UserMemory>(mem: &mut U, regs: &mut Regs, pc: u32, rd: u8, address: u32) -> Ran
    requires register { IsRegister rd }
    requires aligned { pc % 4 ≡ 0 }
    requires fit { U.fit mem.old }
    ensures executes { let before = view_of U.UserMemory mem.old in
        let after = view_of U.UserMemory mem.new in
        DoesExecute (λ mem. loads mem regs.old pc rd address Word (λ word. word)) before after regs.old regs.new result }
    ensures leaves { LeavesRegistersUnlessDone regs.old regs.new result }
    ensures rest { (before : U) → U.same_rest before mem.old → U.same_rest before mem.new }
    ensures uses { UsesMemory U.UserMemory mem.old mem.new result }
{
    if address % 4 != 0 {
        return Ran::Trap {
            cause: LOAD_MISALIGNED,
            value: address,
        };
    }
    match mem.load(address, Width::Word) {
        Ok(Some(value)) => {
            regs.set(rd, value);
            Ran::Next(following(pc))
        }
        Ok(None) => Ran::Trap {
            cause: LOAD_PAGE_FAULT,
            value: address,
        },
        Err(Failed) => Ran::Failed,
    }
}

/// Stores the value at the address, where the process may; then `rd` gets another.
fn put<U: UserMemory>(
    mem: &mut U,
    regs: &mut Regs,
    pc: u32,
    rd: u8,
    loaded: u32,
    address: u32,
    value: u32,
) -> Ran
    requires register { IsRegister rd }
    requires aligned { pc % 4 ≡ 0 }
    requires word { address % 4 ≡ 0 }
    requires fit { U.fit mem.old }
    ensures executes { let before = view_of U.UserMemory mem.old in
        let after = view_of U.UserMemory mem.new in
        DoesExecute (λ mem. puts_if_allowed mem address value (with_reg regs.old rd loaded) (following pc))
        before after regs.old regs.new result }
    ensures leaves { LeavesRegistersUnlessDone regs.old regs.new result }
    ensures rest { (before : U) → U.same_rest before mem.old → U.same_rest before mem.new }
    ensures uses { UsesMemory U.UserMemory mem.old mem.new result }
{
    match mem.store(address, Width::Word, value) {
        Ok(Stored::Done) => {
            regs.set(rd, loaded);
            Ran::Next(following(pc))
        }
        Ok(Stored::Device(offset)) => {
            regs.set(rd, loaded);
            Ran::Device {
                offset,
                value,
                next: following(pc),
            }
        }
        Ok(Stored::Fault) => Ran::Trap {
            cause: STORE_PAGE_FAULT,
            value: address,
        },
        Err(Failed) => Ran::Failed,
    }
}

/// SC: where the address is reserved, stores the value there and `rd` gets 0; else `rd` gets 1.
pub fn store_conditionally<U: UserMemory>(
    mem: &mut U,
    regs: &mut Regs,
    pc: u32,
    rd: u8,
    address: u32,
    reserved: Option<u32>,
    value: u32,
) -> Ran
    requires register { IsRegister rd }
    requires aligned { pc % 4 ≡ 0 }
    requires fit { U.fit mem.old }
    ensures executes { let before = view_of U.UserMemory mem.old in
        let after = view_of U.UserMemory mem.new in
        DoesExecute (λ mem. stores_conditionally mem regs.old pc rd address reserved value) before after regs.old regs.new result }
    ensures leaves { LeavesRegistersUnlessDone regs.old regs.new result }
    ensures rest { (before : U) → U.same_rest before mem.old → U.same_rest before mem.new }
    ensures uses { UsesMemory U.UserMemory mem.old mem.new result }
{
    if address % 4 != 0 {
        return Ran::Trap {
            cause: STORE_MISALIGNED,
            value: address,
        };
    }
    if is_reserved(reserved, address) {
        return put(mem, regs, pc, rd, 0, address, value);
    }
    if !mem.can_store(address, Width::Word) {
        return Ran::Trap {
            cause: STORE_PAGE_FAULT,
            value: address,
        };
    }
    regs.set(rd, 1);
    Ran::Next(following(pc))
}

/// Whether the address is the reserved one.
fn is_reserved(reserved: Option<u32>, address: u32) -> bool
    ensures { result ≡ is_reserved reserved address }
{
    match reserved {
        Some(a) => a == address,
        None => false,
    }
}

/// An AMO: `rd` gets the word at the address, and the result of the operation goes there.
pub fn operate<U: UserMemory>(
    mem: &mut U,
    regs: &mut Regs,
    pc: u32,
    rd: u8,
    address: u32,
    operation: Operation,
    operand: u32,
) -> Ran
    requires register { IsRegister rd }
    requires aligned { pc % 4 ≡ 0 }
    requires fit { U.fit mem.old }
    ensures executes { let before = view_of U.UserMemory mem.old in
        let after = view_of U.UserMemory mem.new in
        DoesExecute (λ mem. operates mem regs.old pc rd address (λ old. result_of (operation_of operation) old operand))
        before after regs.old regs.new result }
    ensures leaves { LeavesRegistersUnlessDone regs.old regs.new result }
    ensures rest { (before : U) → U.same_rest before mem.old → U.same_rest before mem.new }
    ensures uses { UsesMemory U.UserMemory mem.old mem.new result }
{
    if address % 4 != 0 {
        return Ran::Trap {
            cause: STORE_MISALIGNED,
            value: address,
        };
    }
    let old = match mem.load(address, Width::Word) {
        Ok(Some(old)) => old,
        Ok(None) => {
            return Ran::Trap {
                cause: STORE_PAGE_FAULT,
                value: address,
            };
        }
        Err(Failed) => return Ran::Failed,
    };
    let value = result(operation, old, operand);
    put(mem, regs, pc, rd, old, address, value)
}
