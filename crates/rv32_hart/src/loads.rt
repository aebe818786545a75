//! Loads.

ghost use Rattle.std.specs.Prelude.{◌≡◌, ◌%◌, ◌==◌};
ghost use Rattle.xk_base.specs.UserMemory.{size_of};
ghost use Rattle.rv32_words.specs.Formats.{IsRegister};
ghost use Rattle.machine_model.specs.Hart.Instructions.{loads};
ghost use Rattle.rv32_hart.specs.Operations.{extended};
ghost use Rattle.rv32_hart.specs.Running.{DoesExecute, LeavesRegisters, UsesMemory, view_of};

use crate::arithmetic::{sign_extend_byte, sign_extend_half};
use crate::causes::{LOAD_MISALIGNED, LOAD_PAGE_FAULT};
use crate::jumps::following;
use crate::ran::Ran;
use xk_base::{Failed, Regs, UserMemory, Width};

/// Whether the address is a multiple of the width.
#[inline(always)]
pub fn is_aligned(address: u32, width: Width) -> bool
    ensures { result ≡ (address % size_of width == 0) }
{
    let size = match width {
        Width::Byte => 1,
        Width::Half => 2,
        Width::Word => 4,
    };
    address % size == 0
}

/// A number of that width as a word; its sign is extended if it is a signed number.
#[inline(always)]
fn extend(value: u32, width: Width, signed: bool) -> u32
    ensures { result ≡ extended width signed value }
{
    match (width, signed) {
        (Width::Byte, true) => sign_extend_byte(value),
        (Width::Half, true) => sign_extend_half(value),
        _ => value,
    }
}

/// Loads the number of that width at the address into `rd`.
pub fn load<U: UserMemory>(
    mem: &mut U,
    regs: &mut Regs,
    pc: u32,
    rd: u8,
    address: u32,
    width: Width,
    signed: bool,
) -> Ran
    requires register { IsRegister rd }
    requires aligned { pc % 4 ≡ 0 }
    requires fit { U.fit mem.old }
    ensures executes { let before = view_of U.UserMemory mem.old in
        let after = view_of U.UserMemory mem.new in
        DoesExecute (λ mem. loads mem regs.old pc rd address width (extended width signed)) before after regs.old regs.new result }
    ensures leaves { LeavesRegisters regs.old regs.new result }
    ensures rest { (before : U) → U.same_rest before mem.old → U.same_rest before mem.new }
    ensures uses { UsesMemory U.UserMemory mem.old mem.new result }
{
    if !is_aligned(address, width) {
        return Ran::Trap {
            cause: LOAD_MISALIGNED,
            value: address,
        };
    }
    match mem.load(address, width) {
        Ok(Some(value)) => {
            regs.set(rd, extend(value, width, signed));
            Ran::Next(following(pc))
        }
        Ok(None) => Ran::Trap {
            cause: LOAD_PAGE_FAULT,
            value: address,
        },
        Err(Failed) => Ran::Failed,
    }
}
