//! Jumps and branches.

ghost use Rattle.std.specs.Prelude.{◌≡◌, ◌%◌, ℕ, List};
ghost use Rattle.rv32_words.specs.Formats.{IsRegister};
ghost use Rattle.machine_model.specs.Hart.Instructions.{following, branches, jumps};
ghost use Rattle.rv32_hart.specs.Running.{IsExecutedAlone, LeavesRegisters, GoesOnAligned};

use crate::arithmetic::add_immediate;
use crate::causes::TARGET_MISALIGNED;
use crate::ran::Ran;
use xk_base::Regs;

/// The pc of the instruction that follows.
#[inline(always)]
pub fn following(pc: u32) -> u32
    ensures { result ≡ following pc }
{
    pc.wrapping_add(4)
}

/// Jumps to the target; `rd` gets the pc of the instruction that follows.
#[inline(always)]
pub fn jump(regs: &mut Regs, pc: u32, rd: u8, target: u32) -> Ran
    requires { IsRegister rd }
    ensures executes { IsExecutedAlone (jumps regs.old pc rd target) regs.old regs.new result }
    ensures leaves { LeavesRegisters regs.old regs.new result }
    ensures aligned { GoesOnAligned result }
{
    if target % 4 != 0 {
        return Ran::Trap {
            cause: TARGET_MISALIGNED,
            value: target,
        };
    }
    regs.set(rd, following(pc));
    Ran::Next(target)
}

/// Branches by the offset in bytes, if the branch is taken, and else goes on.
#[inline(always)]
pub fn branch(pc: u32, taken: bool, offset: i32) -> Ran
    requires { pc % 4 ≡ 0 }
    ensures executes { (regs : List ℕ) → IsExecutedAlone (branches regs pc offset taken) regs regs result }
    ensures aligned { GoesOnAligned result }
{
    if !taken {
        return Ran::Next(following(pc));
    }
    let target = add_immediate(pc, offset);
    if target % 4 != 0 {
        return Ran::Trap {
            cause: TARGET_MISALIGNED,
            value: target,
        };
    }
    Ran::Next(target)
}
