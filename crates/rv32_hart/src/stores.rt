//! Stores.

ghost use Rattle.std.specs.Prelude.{◌≡◌, ◌%◌, ℕ, List};
ghost use Rattle.machine_model.specs.Hart.Instructions.{stores};
ghost use Rattle.rv32_hart.specs.Running.{DoesExecute, UsesMemory, view_of};

use crate::causes::{STORE_MISALIGNED, STORE_PAGE_FAULT};
use crate::jumps::following;
use crate::loads::is_aligned;
use crate::ran::Ran;
use xk_base::{Failed, Stored, UserMemory, Width};

/// Stores the low bytes of the value at the address.
pub fn store<U: UserMemory>(mem: &mut U, pc: u32, address: u32, width: Width, value: u32) -> Ran
    requires aligned { pc % 4 ≡ 0 }
    requires fit { U.fit mem.old }
    ensures executes { let before = view_of U.UserMemory mem.old in
        let after = view_of U.UserMemory mem.new in
        (regs : List ℕ) → DoesExecute (λ mem. stores mem regs pc address width value) before after regs regs result }
    ensures rest { (before : U) → U.same_rest before mem.old → U.same_rest before mem.new }
    ensures uses { UsesMemory U.UserMemory mem.old mem.new result }
{
    if !is_aligned(address, width) {
        return Ran::Trap {
            cause: STORE_MISALIGNED,
            value: address,
        };
    }
    match mem.store(address, width, value) {
        Ok(Stored::Done) => Ran::Next(following(pc)),
        Ok(Stored::Device(offset)) => Ran::Device {
            offset,
            value,
            next: following(pc),
        },
        Ok(Stored::Fault) => Ran::Trap {
            cause: STORE_PAGE_FAULT,
            value: address,
        },
        Err(Failed) => Ran::Failed,
    }
}
