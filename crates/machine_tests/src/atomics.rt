//! Values from outside the program: words that were put together by hand from the fields that the
//! RISC-V Unprivileged ISA draws in its chapter "A", and results computed from its table of the
//! operations.

use crate::expecting::expect_eq;
use crate::memory::SmallMemory;
use rv32_atomics::{Atomic, decode_atomic, encode_atomic, run_any, run_or_leave};
use rv32_hart::Ran;
use std::process::Abort;
use xk_base::{Regs, Width};

/// Rows of a table: two words, and what comes of them.
macro_rules! rows {
    ($($a:literal $b:literal => $($result:literal)*;)*) => {
        [$(($a, $b, [$($result),*])),*]
    };
}

/// The word in memory and the word in a1, and what each AMO of `AMOS` stores.
const RESULTS: [(u32, u32, [u32; 9]); 25] = rows! {
    0x0000_0000 0x0000_0000 => 0x0000_0000 0x0000_0000 0x0000_0000 0x0000_0000 0x0000_0000 0x0000_0000 0x0000_0000 0x0000_0000 0x0000_0000;
    0x0000_0000 0x0000_0001 => 0x0000_0001 0x0000_0001 0x0000_0001 0x0000_0000 0x0000_0001 0x0000_0000 0x0000_0001 0x0000_0000 0x0000_0001;
    0x0000_0000 0x7fff_ffff => 0x7fff_ffff 0x7fff_ffff 0x7fff_ffff 0x0000_0000 0x7fff_ffff 0x0000_0000 0x7fff_ffff 0x0000_0000 0x7fff_ffff;
    0x0000_0000 0x8000_0000 => 0x8000_0000 0x8000_0000 0x8000_0000 0x0000_0000 0x8000_0000 0x8000_0000 0x0000_0000 0x0000_0000 0x8000_0000;
    0x0000_0000 0xffff_ffff => 0xffff_ffff 0xffff_ffff 0xffff_ffff 0x0000_0000 0xffff_ffff 0xffff_ffff 0x0000_0000 0x0000_0000 0xffff_ffff;
    0x0000_0001 0x0000_0000 => 0x0000_0000 0x0000_0001 0x0000_0001 0x0000_0000 0x0000_0001 0x0000_0000 0x0000_0001 0x0000_0000 0x0000_0001;
    0x0000_0001 0x0000_0001 => 0x0000_0001 0x0000_0002 0x0000_0000 0x0000_0001 0x0000_0001 0x0000_0001 0x0000_0001 0x0000_0001 0x0000_0001;
    0x0000_0001 0x7fff_ffff => 0x7fff_ffff 0x8000_0000 0x7fff_fffe 0x0000_0001 0x7fff_ffff 0x0000_0001 0x7fff_ffff 0x0000_0001 0x7fff_ffff;
    0x0000_0001 0x8000_0000 => 0x8000_0000 0x8000_0001 0x8000_0001 0x0000_0000 0x8000_0001 0x8000_0000 0x0000_0001 0x0000_0001 0x8000_0000;
    0x0000_0001 0xffff_ffff => 0xffff_ffff 0x0000_0000 0xffff_fffe 0x0000_0001 0xffff_ffff 0xffff_ffff 0x0000_0001 0x0000_0001 0xffff_ffff;
    0x7fff_ffff 0x0000_0000 => 0x0000_0000 0x7fff_ffff 0x7fff_ffff 0x0000_0000 0x7fff_ffff 0x0000_0000 0x7fff_ffff 0x0000_0000 0x7fff_ffff;
    0x7fff_ffff 0x0000_0001 => 0x0000_0001 0x8000_0000 0x7fff_fffe 0x0000_0001 0x7fff_ffff 0x0000_0001 0x7fff_ffff 0x0000_0001 0x7fff_ffff;
    0x7fff_ffff 0x7fff_ffff => 0x7fff_ffff 0xffff_fffe 0x0000_0000 0x7fff_ffff 0x7fff_ffff 0x7fff_ffff 0x7fff_ffff 0x7fff_ffff 0x7fff_ffff;
    0x7fff_ffff 0x8000_0000 => 0x8000_0000 0xffff_ffff 0xffff_ffff 0x0000_0000 0xffff_ffff 0x8000_0000 0x7fff_ffff 0x7fff_ffff 0x8000_0000;
    0x7fff_ffff 0xffff_ffff => 0xffff_ffff 0x7fff_fffe 0x8000_0000 0x7fff_ffff 0xffff_ffff 0xffff_ffff 0x7fff_ffff 0x7fff_ffff 0xffff_ffff;
    0x8000_0000 0x0000_0000 => 0x0000_0000 0x8000_0000 0x8000_0000 0x0000_0000 0x8000_0000 0x8000_0000 0x0000_0000 0x0000_0000 0x8000_0000;
    0x8000_0000 0x0000_0001 => 0x0000_0001 0x8000_0001 0x8000_0001 0x0000_0000 0x8000_0001 0x8000_0000 0x0000_0001 0x0000_0001 0x8000_0000;
    0x8000_0000 0x7fff_ffff => 0x7fff_ffff 0xffff_ffff 0xffff_ffff 0x0000_0000 0xffff_ffff 0x8000_0000 0x7fff_ffff 0x7fff_ffff 0x8000_0000;
    0x8000_0000 0x8000_0000 => 0x8000_0000 0x0000_0000 0x0000_0000 0x8000_0000 0x8000_0000 0x8000_0000 0x8000_0000 0x8000_0000 0x8000_0000;
    0x8000_0000 0xffff_ffff => 0xffff_ffff 0x7fff_ffff 0x7fff_ffff 0x8000_0000 0xffff_ffff 0x8000_0000 0xffff_ffff 0x8000_0000 0xffff_ffff;
    0xffff_ffff 0x0000_0000 => 0x0000_0000 0xffff_ffff 0xffff_ffff 0x0000_0000 0xffff_ffff 0xffff_ffff 0x0000_0000 0x0000_0000 0xffff_ffff;
    0xffff_ffff 0x0000_0001 => 0x0000_0001 0x0000_0000 0xffff_fffe 0x0000_0001 0xffff_ffff 0xffff_ffff 0x0000_0001 0x0000_0001 0xffff_ffff;
    0xffff_ffff 0x7fff_ffff => 0x7fff_ffff 0x7fff_fffe 0x8000_0000 0x7fff_ffff 0xffff_ffff 0xffff_ffff 0x7fff_ffff 0x7fff_ffff 0xffff_ffff;
    0xffff_ffff 0x8000_0000 => 0x8000_0000 0x7fff_ffff 0x7fff_ffff 0x8000_0000 0xffff_ffff 0x8000_0000 0xffff_ffff 0x8000_0000 0xffff_ffff;
    0xffff_ffff 0xffff_ffff => 0xffff_ffff 0xffff_fffe 0x0000_0000 0xffff_ffff 0xffff_ffff 0xffff_ffff 0xffff_ffff 0xffff_ffff 0xffff_ffff;
};

/// AMOSWAP, AMOADD, AMOXOR, AMOAND, AMOOR, AMOMIN, AMOMAX, AMOMINU and AMOMAXU a0, a1, (a2).
const AMOS: [u32; 9] = [
    0x08b6_252f,
    0x00b6_252f,
    0x20b6_252f,
    0x60b6_252f,
    0x40b6_252f,
    0x80b6_252f,
    0xa0b6_252f,
    0xc0b6_252f,
    0xe0b6_252f,
];

/// LR a0, (a2).
const LR: u32 = 0x1006_252f;

/// SC a0, a1, (a2).
const SC: u32 = 0x18b6_252f;

/// SW a1, (a2).
const SW: u32 = 0x00b6_2023;

/// What comes of one instruction at address 0.
#[derive(Clone, Copy, Debug, PartialEq, Eq)]
struct Outcome {
    ran: Ran,
    a0: u32,
    stored: u32,
    reserved: Option<u32>,
}

/// The thread goes on, with these words in a0 and at 256, and this reservation.
macro_rules! next {
    ($a0:expr, $stored:expr, $reserved:expr) => {
        Outcome {
            ran: Ran::Next(4),
            a0: $a0,
            stored: $stored,
            reserved: $reserved,
        }
    };
}

/// Nothing is left but that 9 stands at 256 and 7 in a0, and what was reserved.
macro_rules! kept {
    ($ran:expr, $reserved:expr) => {
        Outcome {
            ran: $ran,
            a0: 7,
            stored: 9,
            reserved: $reserved,
        }
    };
}

macro_rules! trap {
    ($cause:literal, $value:literal) => {
        Ran::Trap {
            cause: $cause,
            value: $value,
        }
    };
}

/// What executes the instruction: the one call or the other.
#[derive(Clone, Copy)]
enum By {
    RunAny,
    RunOrLeave,
}

/// The instruction of the word at address 0, with a1 and the address in a2, where `old` stands at 256
/// and this address is reserved.
fn outcome_of(by: By, word: u32, a1: u32, a2: u32, old: u32, reserved: Option<u32>) -> Outcome {
    let mut memory = SmallMemory { bytes: [0; 512] };
    memory.set_word(0, word);
    memory.set_word(256, old);
    let mut regs = Regs::new();
    regs.set(10, 7);
    regs.set(11, a1);
    regs.set(12, a2);
    let mut left = reserved;
    let ran = match by {
        By::RunAny => run_any(&mut regs, 0, &mut left, &mut memory),
        By::RunOrLeave => run_or_leave(&mut regs, 0, &mut left, &mut memory),
    };
    Outcome {
        ran,
        a0: regs.get(10),
        stored: memory.number(256, Width::Word),
        reserved: left,
    }
}

/// Each AMO puts the old word in a0 and its result in memory, and keeps a reservation.
#[test]
fn operations(rt: HostRuntime) {
    for (old, operand, results) in &RESULTS {
        for (word, result) in AMOS.iter().zip(results) {
            let told = outcome_of(By::RunAny, *word, *operand, 256, *old, Some(256));
            expect_eq(&rt, (*word, told), (*word, next!(*old, *result, Some(256))));
        }
    }
}

/// ADDI a0, a0, 1.
const ADDI: u32 = 0x0015_0513;

/// An instruction, what is reserved before it, and its outcome with 5 in a1, and 9 at 256, its address.
const RESERVATIONS: [(u32, Option<u32>, Outcome); 6] = [
    (LR, None, next!(9, 9, Some(256))),
    (LR, Some(4), next!(9, 9, Some(256))),
    (SC, Some(256), next!(0, 5, None)),
    (SC, Some(260), next!(1, 9, None)),
    (SC, None, next!(1, 9, None)),
    (ADDI, Some(256), next!(8, 9, Some(256))),
];

/// LR reserves, and SC stores where its address is reserved and nowhere else.
#[test]
fn reservations(rt: HostRuntime) {
    for (word, reserved, wanted) in &RESERVATIONS {
        let told = outcome_of(By::RunAny, *word, 5, 256, 9, *reserved);
        expect_eq(&rt, (*word, told), (*word, *wanted));
    }
}

/// An instruction, its address, and how it traps with 5 in a1 and 9 at 256, which is reserved; and an ECALL.
const TRAPS: [(u32, u32, Ran); 8] = [
    (LR, 258, trap!(4, 258)),
    (SC, 258, trap!(6, 258)),
    (AMOS[1], 257, trap!(6, 257)),
    (LR, 512, trap!(13, 512)),
    (SC, 512, trap!(15, 512)),
    (AMOS[1], 512, trap!(15, 512)),
    (0x10b6_252f, 256, trap!(2, 0x10b6_252f)), // LR with an rs2
    (0x0000_0073, 256, Ran::Ecall),
];

/// A store of 5 to the console's page.
const DEVICE: Ran = Ran::Device {
    offset: 496,
    value: 5,
    next: 4,
};

/// Each trap with its cause and its value, an ECALL, and a store to the console's page.
#[test]
fn traps(rt: HostRuntime) {
    for (word, address, ran) in &TRAPS {
        let told = outcome_of(By::RunAny, *word, 5, *address, 9, Some(256));
        let wanted = Outcome {
            ran: *ran,
            a0: 7,
            stored: 9,
            reserved: None,
        };
        expect_eq(&rt, (*word, told), (*word, wanted));
    }
    let told = outcome_of(By::RunAny, SC, 5, 496, 9, Some(496));
    expect_eq(&rt, (told.ran, told.a0), (DEVICE, 0));
    let told = outcome_of(By::RunAny, AMOS[0], 5, 496, 9, None);
    expect_eq(&rt, (told.ran, told.a0), (DEVICE, 0));
}

/// An instruction, its address, and its outcome with 5 in a1, and 9 at 256, where its address is reserved, or 256 for 258.
const LEAVING: [(u32, u32, u32, Outcome); 7] = [
    (SC, 496, 496, kept!(DEVICE, Some(496))),
    (AMOS[0], 496, 496, kept!(DEVICE, Some(496))),
    (SW, 496, 496, kept!(DEVICE, Some(496))),
    (0x0000_0073, 256, 256, kept!(Ran::Ecall, Some(256))),
    (SC, 258, 256, kept!(trap!(6, 258), Some(256))),
    (SC, 256, 256, next!(0, 5, None)),
    (AMOS[0], 256, 256, next!(9, 5, Some(256))),
];

/// Where the thread goes on it has what the instruction leaves, and else what it had before.
#[test]
fn leaving(rt: HostRuntime) {
    for (word, address, reserved, wanted) in &LEAVING {
        let told = outcome_of(By::RunOrLeave, *word, 5, *address, 9, Some(*reserved));
        expect_eq(&rt, (*word, told), (*word, *wanted));
    }
}

/// Each word decodes to its instruction, and that encodes to the word.
fn both_ways(rt: &impl Abort, rows: &[(u32, Atomic)]) {
    for (word, atomic) in rows {
        let found = decode_atomic(*word);
        expect_eq(rt, (*word, found), (*word, Some(*atomic)));
        if let Some(a) = found {
            expect_eq(rt, encode_atomic(a), *word);
        }
    }
}

/// An instruction of a0, a1 and (a2).
macro_rules! of_a0 {
    ($kind:ident) => {
        Atomic::$kind {
            rd: 10,
            rs1: 12,
            rs2: 11,
            aq: false,
            rl: false,
        }
    };
}

/// Words of each instruction.
const WORDS: [(u32, Atomic); 13] = [
    (
        LR,
        Atomic::Lr {
            rd: 10,
            rs1: 12,
            aq: false,
            rl: false,
        },
    ),
    (
        0x1406_252f,
        Atomic::Lr {
            rd: 10,
            rs1: 12,
            aq: true,
            rl: false,
        },
    ),
    (SC, of_a0!(Sc)),
    (
        0x1ab6_252f,
        Atomic::Sc {
            rd: 10,
            rs1: 12,
            rs2: 11,
            aq: false,
            rl: true,
        },
    ),
    (AMOS[0], of_a0!(AmoSwap)),
    (
        0x06b6_252f,
        Atomic::AmoAdd {
            rd: 10,
            rs1: 12,
            rs2: 11,
            aq: true,
            rl: true,
        },
    ),
    (AMOS[2], of_a0!(AmoXor)),
    (AMOS[3], of_a0!(AmoAnd)),
    (AMOS[4], of_a0!(AmoOr)),
    (AMOS[5], of_a0!(AmoMin)),
    (AMOS[6], of_a0!(AmoMax)),
    (AMOS[7], of_a0!(AmoMinu)),
    (
        0xe1ff_afaf,
        Atomic::AmoMaxu {
            rd: 31,
            rs1: 31,
            rs2: 31,
            aq: false,
            rl: false,
        },
    ),
];

/// An rs2 of LR, the width of a double word, a funct5 that no row has, and another opcode.
const OUTSIDE_THE_TABLE: [u32; 4] = [0x10b6_252f, 0x00b6_352f, 0x28b6_252f, 0x00b6_2533];

/// Words of each instruction, and words outside the table.
#[test]
fn words(rt: HostRuntime) {
    both_ways(&rt, &WORDS);
    for word in OUTSIDE_THE_TABLE {
        expect_eq(&rt, (word, decode_atomic(word)), (word, None));
    }
}
