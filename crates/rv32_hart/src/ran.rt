//! What comes of one instruction.

/// What comes of one instruction.
#[derive(Clone, Copy, Debug, PartialEq, Eq)]
pub enum Ran {
    /// It was done. The pc of the next instruction.
    Next(u32),
    /// ECALL: the kernel is to do the call. The registers are as before.
    Ecall,
    /// It trapped, by the cause of the RISC-V Privileged Architecture, 4.1.8, with the value that
    /// goes with the cause. The registers are as before.
    Trap { cause: u8, value: u32 },
    /// It was done, and stored a value at an offset in bytes of the console's page. The pc of the
    /// next instruction.
    Device { offset: u32, value: u32, next: u32 },
    /// Memory failed, and has counted it. The registers are as before, and nothing was done.
    Failed,
}
