//! The 32 registers of a thread (RISC-V Unprivileged ISA, 2.1).

ghost use Rattle.std.specs.Prelude.{◌≡◌, ◌<◌, replicate, length};
ghost use Rattle.xk_base.specs.Calls.Registers.{reg_at, with_reg, arguments_of, with_arguments};

use std::marker::Model;

/// The register a0, which is x10. The arguments a0 to a7 follow one another.
const A0: u8 = 10;

/// Registers x0 to x31. x0 is always 0.
#[derive(Clone, Copy, Debug, PartialEq, Eq)]
pub struct Regs {
    words: [u32; 32],
}

impl Model for Regs {
    ghost use Rattle.std.specs.Prelude.{ℕ, List, ◌≡◌, slice_index};

    ghost Value = { List ℕ };

    ghost view = { λ r. r.words };

    ghost invariant = { λ r. slice_index r.words 0 ≡ 0 };

    ghost inverse = { λ words. record { words = words } };
}

impl Regs {
    /// All registers 0.
    pub fn new() -> Regs
        ensures { result ≡ replicate 32 0 }
    {
        Regs { words: [0; 32] }
    }

    /// What the register holds; 0 for x0.
    pub fn get(&self, r: u8) -> u32
        requires { r < 32 }
        ensures value { result ≡ reg_at self.now r }
        ensures len { length self.now ≡ 32 }
        ensures zero { reg_at self.now 0 ≡ 0 }
    {
        self.words[r as usize]
    }

    /// Writes the register; a write of x0 has no effect.
    pub fn set(&mut self, r: u8, v: u32)
        requires { r < 32 }
        ensures value { self.new ≡ with_reg self.old r v }
        ensures len { length self.new ≡ 32 }
    {
        if r != 0 {
            self.words[r as usize] = v;
        }
    }

    /// What a0 to a7 hold: the words of a system call.
    pub fn arguments(&self) -> [u32; 8]
        ensures are { result ≡ arguments_of self.now }
        ensures len { length self.now ≡ 32 }
    {
        [
            self.get(A0),
            self.get(A0 + 1),
            self.get(A0 + 2),
            self.get(A0 + 3),
            self.get(A0 + 4),
            self.get(A0 + 5),
            self.get(A0 + 6),
            self.get(A0 + 7),
        ]
    }

    /// Writes words to a0 to a7: the reply to a system call.
    pub fn set_arguments(&mut self, words: [u32; 8])
        ensures are { self.new ≡ with_arguments words self.old }
        ensures len { length self.new ≡ 32 }
    {
        self.words[10..18].copy_from_slice(&words);
    }
}

impl Default for Regs {
    ghost use Rattle.std.specs.Prelude.{◌≡◌, replicate};

    ghost is_default = { λ r. r ≡ replicate 32 0 };

    fn default() -> Regs {
        Regs::new()
    }
}
