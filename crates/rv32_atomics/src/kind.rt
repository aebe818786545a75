//! What an atomic instruction is about, without its registers.

ghost use Rattle.std.specs.Prelude.{◌≡◌};
ghost use Rattle.machine_model.specs.Hart.Atomics.{result_of};
ghost use Rattle.machine_model.specs.Hart.Instructions.{signed_below};
ghost use Rattle.rv32_atomics.specs.Meaning.{kind_of, operation_of, reserves_by};

use crate::atomic::Atomic;

/// What an AMO makes of the word in memory and the word in rs2.
#[derive(Clone, Copy, Debug, PartialEq, Eq)]
pub enum Operation {
    Swap,
    Add,
    Xor,
    And,
    Or,
    Min,
    Max,
    Minu,
    Maxu,
}

/// What an atomic instruction is about.
#[derive(Clone, Copy, Debug, PartialEq, Eq)]
pub enum Kind {
    LoadReserved,
    StoreConditional,
    Amo(Operation),
}

/// What the instruction is about.
pub fn kind_of(atomic: Atomic) -> Kind
    ensures { result ≡ kind_of atomic }
{
    match atomic {
        Atomic::Lr { .. } => Kind::LoadReserved,
        Atomic::Sc { .. } => Kind::StoreConditional,
        Atomic::AmoSwap { .. } => Kind::Amo(Operation::Swap),
        Atomic::AmoAdd { .. } => Kind::Amo(Operation::Add),
        Atomic::AmoXor { .. } => Kind::Amo(Operation::Xor),
        Atomic::AmoAnd { .. } => Kind::Amo(Operation::And),
        Atomic::AmoOr { .. } => Kind::Amo(Operation::Or),
        Atomic::AmoMin { .. } => Kind::Amo(Operation::Min),
        Atomic::AmoMax { .. } => Kind::Amo(Operation::Max),
        Atomic::AmoMinu { .. } => Kind::Amo(Operation::Minu),
        Atomic::AmoMaxu { .. } => Kind::Amo(Operation::Maxu),
    }
}

/// What an AMO stores, of the word in memory and the word in rs2.
pub fn result(operation: Operation, old: u32, operand: u32) -> u32
    ensures { result ≡ result_of (operation_of operation) old operand }
{
    match operation {
        Operation::Swap => operand,
        Operation::Add => old.wrapping_add(operand),
        Operation::Xor => old ^ operand,
        Operation::And => old & operand,
        Operation::Or => old | operand,
        Operation::Min => if is_signed_below(old, operand) {
            old
        } else {
            operand
        },
        Operation::Max => if is_signed_below(old, operand) {
            operand
        } else {
            old
        },
        Operation::Minu => if old < operand { old } else { operand },
        Operation::Maxu => if old < operand { operand } else { old },
    }
}

/// Whether the first word is below the second as signed numbers.
fn is_signed_below(a: u32, b: u32) -> bool
    ensures { result ≡ signed_below a b }
{
    a.cast_signed() < b.cast_signed()
}

/// The reservation that an instruction of an address leaves, unless it traps.
pub fn reserves(kind: Kind, address: u32, reserved: Option<u32>) -> Option<u32>
    ensures { result ≡ reserves_by kind address reserved }
{
    match kind {
        Kind::LoadReserved => Some(address),
        Kind::StoreConditional => None,
        Kind::Amo(_) => reserved,
    }
}
