//! Values from outside the program: what an emulator, QEMU 7.2.22 (`qemu-riscv32`), left in the
//! registers after code that the GNU assembler 2.40 made with `-march=rv32im_zifencei`. For a
//! division by 0 and for -2^31 by -1 they are those of the table "Semantics for division by zero and
//! division overflow" of the RISC-V Unprivileged ISA, chapter "M".

ghost use Rattle.std.specs.Prelude.{◌≤◌, length};

use crate::expecting::expect_eq;
use crate::memory::SmallMemory;
use rv32_hart::{Ran, run_one};
use std::process::Abort;
use xk_base::Regs;

/// Rows of a table: two words, and what comes of them.
macro_rules! rows {
    ($($a:literal $b:literal => $($result:literal)*;)*) => {
        [$(($a, $b, [$($result),*])),*]
    };
}

/// Two operands, and what MUL, MULH, MULHSU and MULHU give.
const PRODUCTS: [(u32, u32, [u32; 4]); 16] = rows! {
    0x0000_0007 0x0000_0000 => 0x0000_0000 0x0000_0000 0x0000_0000 0x0000_0000;
    0x8000_0000 0xffff_ffff => 0x8000_0000 0x0000_0000 0x8000_0000 0x7fff_ffff;
    0x0000_0000 0x0000_0000 => 0x0000_0000 0x0000_0000 0x0000_0000 0x0000_0000;
    0x8000_0000 0x0000_0000 => 0x0000_0000 0x0000_0000 0x0000_0000 0x0000_0000;
    0xffff_ffff 0x0000_0000 => 0x0000_0000 0x0000_0000 0x0000_0000 0x0000_0000;
    0x0000_0007 0x0000_0002 => 0x0000_000e 0x0000_0000 0x0000_0000 0x0000_0000;
    0x0000_0007 0xffff_fffe => 0xffff_fff2 0xffff_ffff 0x0000_0006 0x0000_0006;
    0xffff_fff9 0x0000_0002 => 0xffff_fff2 0xffff_ffff 0xffff_ffff 0x0000_0001;
    0xffff_fff9 0xffff_fffe => 0x0000_000e 0x0000_0000 0xffff_fff9 0xffff_fff7;
    0x8000_0000 0x8000_0000 => 0x0000_0000 0x4000_0000 0xc000_0000 0x4000_0000;
    0x7fff_ffff 0x8000_0000 => 0x8000_0000 0xc000_0000 0x3fff_ffff 0x3fff_ffff;
    0x8000_0000 0x7fff_ffff => 0x8000_0000 0xc000_0000 0xc000_0000 0x3fff_ffff;
    0xffff_ffff 0xffff_ffff => 0x0000_0001 0x0000_0000 0xffff_ffff 0xffff_fffe;
    0xffff_ffff 0x7fff_ffff => 0x8000_0001 0xffff_ffff 0xffff_ffff 0x7fff_fffe;
    0x0000_0001 0x8000_0000 => 0x8000_0000 0xffff_ffff 0x0000_0000 0x0000_0000;
    0x1234_5678 0xfedc_ba98 => 0x3506_8740 0xffeb_4992 0x121f_a00a 0x121f_a00a;
};

/// A dividend and a divisor, and what DIV, DIVU, REM and REMU give.
const QUOTIENTS: [(u32, u32, [u32; 4]); 16] = rows! {
    0x0000_0007 0x0000_0000 => 0xffff_ffff 0xffff_ffff 0x0000_0007 0x0000_0007;
    0x8000_0000 0xffff_ffff => 0x8000_0000 0x0000_0000 0x0000_0000 0x8000_0000;
    0x0000_0000 0x0000_0000 => 0xffff_ffff 0xffff_ffff 0x0000_0000 0x0000_0000;
    0x8000_0000 0x0000_0000 => 0xffff_ffff 0xffff_ffff 0x8000_0000 0x8000_0000;
    0xffff_ffff 0x0000_0000 => 0xffff_ffff 0xffff_ffff 0xffff_ffff 0xffff_ffff;
    0x0000_0007 0x0000_0002 => 0x0000_0003 0x0000_0003 0x0000_0001 0x0000_0001;
    0x0000_0007 0xffff_fffe => 0xffff_fffd 0x0000_0000 0x0000_0001 0x0000_0007;
    0xffff_fff9 0x0000_0002 => 0xffff_fffd 0x7fff_fffc 0xffff_ffff 0x0000_0001;
    0xffff_fff9 0xffff_fffe => 0x0000_0003 0x0000_0000 0xffff_ffff 0xffff_fff9;
    0x8000_0000 0x8000_0000 => 0x0000_0001 0x0000_0001 0x0000_0000 0x0000_0000;
    0x7fff_ffff 0x8000_0000 => 0x0000_0000 0x0000_0000 0x7fff_ffff 0x7fff_ffff;
    0x8000_0000 0x7fff_ffff => 0xffff_ffff 0x0000_0001 0xffff_ffff 0x0000_0001;
    0xffff_ffff 0xffff_ffff => 0x0000_0001 0x0000_0001 0x0000_0000 0x0000_0000;
    0xffff_ffff 0x7fff_ffff => 0x0000_0000 0x0000_0002 0xffff_ffff 0x0000_0001;
    0x0000_0001 0x8000_0000 => 0x0000_0000 0x0000_0000 0x0000_0001 0x0000_0001;
    0x1234_5678 0xfedc_ba98 => 0xffff_fff1 0x0000_0000 0x0123_4560 0x1234_5678;
};

/// Two operands, and what SLL, SRL and SRA give.
const SHIFTS: [(u32, u32, [u32; 3]); 10] = rows! {
    0x8000_0001 0x0000_0000 => 0x8000_0001 0x8000_0001 0x8000_0001;
    0x8000_0001 0x0000_0001 => 0x0000_0002 0x4000_0000 0xc000_0000;
    0x8000_0001 0x0000_001f => 0x8000_0000 0x0000_0001 0xffff_ffff;
    0x8000_0001 0x0000_0020 => 0x8000_0001 0x8000_0001 0x8000_0001;
    0x8000_0001 0x0000_0021 => 0x0000_0002 0x4000_0000 0xc000_0000;
    0x7fff_ffff 0x0000_0004 => 0xffff_fff0 0x07ff_ffff 0x07ff_ffff;
    0xfedc_ba98 0xffff_ffe8 => 0xdcba_9800 0x00fe_dcba 0xfffe_dcba;
    0x0000_0001 0xffff_ffff => 0x8000_0000 0x0000_0000 0x0000_0000;
    0x0000_0000 0x0000_001f => 0x0000_0000 0x0000_0000 0x0000_0000;
    0xffff_ffff 0x0000_0010 => 0xffff_0000 0x0000_ffff 0xffff_ffff;
};

/// The word of a shift of x1 by a constant into x3, and what it gives of 0x80000001 and 0x7ffffffe.
const CONSTANT_SHIFTS: [(u32, [u32; 2]); 9] = [
    (0x0000_9193, [0x8000_0001, 0x7fff_fffe]), // slli x3,x1,0
    (0x0010_9193, [0x0000_0002, 0xffff_fffc]), // slli x3,x1,1
    (0x01f0_9193, [0x8000_0000, 0x0000_0000]), // slli x3,x1,31
    (0x0000_d193, [0x8000_0001, 0x7fff_fffe]), // srli x3,x1,0
    (0x0040_d193, [0x0800_0000, 0x07ff_ffff]), // srli x3,x1,4
    (0x01f0_d193, [0x0000_0001, 0x0000_0000]), // srli x3,x1,31
    (0x4000_d193, [0x8000_0001, 0x7fff_fffe]), // srai x3,x1,0
    (0x4040_d193, [0xf800_0000, 0x07ff_ffff]), // srai x3,x1,4
    (0x41f0_d193, [0xffff_ffff, 0x0000_0000]), // srai x3,x1,31
];

/// A program that ends with a call of the kernel. It stores to the bytes from its own address plus 448
/// on, and subtracts its own address, in x9, from what depends on it.
const PROGRAM: [u32; 57] = [
    0x0000_0497, // auipc x9, 0
    0x1c04_8413, // addi x8, x9, 448
    0x1234_52b7, // lui x5, 0x12345
    0x6782_8293, // addi x5, x5, 0x678
    0x0054_2023, // sw x5, 0(x8)
    0x0014_0303, // lb x6, 1(x8)
    0xf800_0393, // addi x7, x0, -128
    0x0074_0223, // sb x7, 4(x8)
    0x0044_0503, // lb x10, 4(x8)
    0x0044_4583, // lbu x11, 4(x8)
    0xffff_f637, // lui x12, 0xfffff
    0x7ab6_6613, // ori x12, x12, 0x7ab
    0x00c4_1323, // sh x12, 6(x8)
    0x0064_1683, // lh x13, 6(x8)
    0x0064_5703, // lhu x14, 6(x8)
    0x0044_2783, // lw x15, 4(x8)
    0x0054_02a3, // sb x5, 5(x8)
    0x0044_2803, // lw x16, 4(x8)
    0x0056_48b3, // xor x17, x12, x5
    0x0053_e933, // or x18, x7, x5
    0x0053_f9b3, // and x19, x7, x5
    0x40c2_8a33, // sub x20, x5, x12
    0x0053_aab3, // slt x21, x7, x5
    0x0053_bb33, // sltu x22, x7, x5
    0xf813_ab93, // slti x23, x7, -127
    0xf813_bc13, // sltiu x24, x7, -127
    0xfff2_cc93, // xori x25, x5, -1
    0x0f06_7d13, // andi x26, x12, 0x0f0
    0x0000_0193, // addi x3, x0, 0
    0x0050_0213, // addi x4, x0, 5
    0x0041_81b3, // 1: add x3, x3, x4
    0xfff2_0213, // addi x4, x4, -1
    0xfe40_4ce3, // blt x0, x4, 1b
    0x0001_8463, // beq x3, x0, 2f
    0x0001_9463, // bne x3, x0, 3f
    0x3e81_8193, // 2: addi x3, x3, 1000
    0xfe53_dee3, // 3: bge x7, x5, 2b
    0xfe53_ece3, // bltu x7, x5, 2b
    0xfe72_fae3, // bgeu x5, x7, 2b
    0x0072_d463, // bge x5, x7, 4f
    0x3e81_8193, // addi x3, x3, 1000
    0x00c0_00ef, // 4: jal x1, 5f
    0x0641_8193, // addi x3, x3, 100
    0x00c0_006f, // jal x0, 6f
    0x0c81_8193, // 5: addi x3, x3, 200
    0x0010_8067, // jalr x0, 1(x1)
    0x0000_0117, // 6: auipc x2, 0
    0x00d1_0167, // jalr x2, 13(x2)
    0x3e81_8193, // addi x3, x3, 1000
    0x0071_8d93, // addi x27, x3, 7
    0x0ff0_000f, // fence
    0x0000_100f, // fence.i
    0x4090_80b3, // sub x1, x1, x9
    0x4091_0133, // sub x2, x2, x9
    0x0000_0413, // addi x8, x0, 0
    0x0000_0493, // addi x9, x0, 0
    0x0000_0073, // ecall
];

/// What x0 to x27 hold at the end of the program.
const AFTER: [u32; 28] = [
    0x0000_0000,
    0x0000_00a8,
    0x0000_00c0,
    0x0000_013b,
    0x0000_0000,
    0x1234_5678,
    0x0000_0056,
    0xffff_ff80,
    0x0000_0000,
    0x0000_0000,
    0xffff_ff80,
    0x0000_0080,
    0xffff_f7ab,
    0xffff_f7ab,
    0x0000_f7ab,
    0xf7ab_0080,
    0xf7ab_7880,
    0xedcb_a1d3,
    0xffff_fff8,
    0x1234_5600,
    0x1234_5ecd,
    0x0000_0001,
    0x0000_0000,
    0x0000_0001,
    0x0000_0001,
    0xedcb_a987,
    0x0000_00a0,
    0x0000_0142,
];

/// A memory with these words from address 0 on.
fn memory_of(words: &[u32]) -> SmallMemory
    requires { length words.now ≤ 124 }
{
    let mut memory = SmallMemory { bytes: [0; 512] };
    for (i, word) in words.iter().enumerate() {
        memory.set_word(4 * i, *word);
    }
    memory
}

/// An instruction of x1 and x2, where these words stand, goes on to the next one and writes this word to x3.
fn expect_x3(rt: &impl Abort, word: u32, a: u32, b: u32, wanted: u32) {
    let mut memory = memory_of(&[word]);
    let mut regs = Regs::new();
    regs.set(1, a);
    regs.set(2, b);
    let ran = run_one(&mut regs, 0, &mut memory);
    let told = (word, a, b, ran, regs.get(3));
    expect_eq(rt, told, (word, a, b, Ran::Next(4), wanted));
}

/// Each instruction, of x1 and x2 into x3, gives what its column says.
fn columns<const N: usize>(rt: &impl Abort, words: &[u32; N], rows: &[(u32, u32, [u32; N])]) {
    for (a, b, results) in rows {
        for (word, result) in words.iter().zip(results) {
            expect_x3(rt, *word, *a, *b, *result);
        }
    }
}

/// MUL, MULH, MULHSU and MULHU x3, x1, x2.
const MULTIPLY: [u32; 4] = [0x0220_81b3, 0x0220_91b3, 0x0220_a1b3, 0x0220_b1b3];

/// DIV, DIVU, REM and REMU x3, x1, x2.
const DIVIDE: [u32; 4] = [0x0220_c1b3, 0x0220_d1b3, 0x0220_e1b3, 0x0220_f1b3];

/// SLL, SRL and SRA x3, x1, x2.
const SHIFT: [u32; 3] = [0x0020_91b3, 0x0020_d1b3, 0x4020_d1b3];

#[test]
fn arithmetic(rt: HostRuntime) {
    columns(&rt, &MULTIPLY, &PRODUCTS);
    columns(&rt, &DIVIDE, &QUOTIENTS);
    columns(&rt, &SHIFT, &SHIFTS);
    for (word, [first, second]) in &CONSTANT_SHIFTS {
        expect_x3(&rt, *word, 0x8000_0001, 0, *first);
        expect_x3(&rt, *word, 0x7fff_fffe, 0, *second);
    }
}

/// The instructions of the program are executed one after the other, until it calls the kernel.
#[test]
fn program(rt: HostRuntime) {
    let mut memory = memory_of(&PROGRAM);
    let mut regs = Regs::new();
    let mut pc = 0;
    for _ in 0..100 {
        match run_one(&mut regs, pc, &mut memory) {
            Ran::Next(next) => pc = next,
            other => {
                expect_eq(&rt, other, Ran::Ecall);
                break;
            }
        }
    }
    expect_eq(&rt, pc, 4 * 56);
    let mut left = [0; 28];
    for r in 0..28u8 {
        left[r as usize] = regs.get(r);
    }
    expect_eq(&rt, left, AFTER);
}

macro_rules! trap {
    ($cause:literal, $value:literal) => {
        Ran::Trap {
            cause: $cause,
            value: $value,
        }
    };
}

/// An instruction, what x1 holds, and how it traps with 0x12345678 in x2; the last one stores to the console.
const TRAPS: [(u32, u32, Ran); 8] = [
    (0x0000_8067, 6, trap!(0, 6)), // jalr x0,0(x1)
    (0x0000_0000, 0, trap!(2, 0)), // no instruction
    (0x0010_0073, 0, trap!(3, 0)), // ebreak
    (0x0000_a183, 2, trap!(4, 2)), // lw x3,0(x1)
    (0x0020_9023, 1, trap!(6, 1)), // sh x2,0(x1)
    (0x0000_a183, 512, trap!(13, 512)), // lw x3,0(x1)
    (0x0020_9023, 512, trap!(15, 512)), // sh x2,0(x1)
    (
        0x0020_8023,
        497,
        Ran::Device {
            offset: 497,
            value: 0x1234_5678,
            next: 4,
        },
    ), // sb x2,0(x1)
];

/// Each trap with its cause (RISC-V Privileged Architecture, 4.1.8) and its value, and a store to the
/// console.
#[test]
fn traps(rt: HostRuntime) {
    for (word, address, wanted) in &TRAPS {
        let mut memory = memory_of(&[*word]);
        let mut regs = Regs::new();
        regs.set(1, *address);
        regs.set(2, 0x1234_5678);
        let ran = run_one(&mut regs, 0, &mut memory);
        let told = (*word, ran, regs.get(1), regs.get(3));
        expect_eq(&rt, told, (*word, *wanted, *address, 0));
    }
    let fetched = run_one(&mut Regs::new(), 512, &mut memory_of(&[]));
    expect_eq(&rt, fetched, trap!(12, 512));
}
