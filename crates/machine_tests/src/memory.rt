//! A memory for the tests.

ghost use Rattle.std.specs.Prelude.{◌≡◌, ◌<◌, ◌≤◌, ◌%◌};
ghost use Rattle.xk_base.specs.UserMemory.{size_of};

use xk_base::{Failed, Stored, UserMemory, Width};

/// 512 bytes from address 0, which a process may fetch, load and store. The last 16 are the
/// console's. Its clauses don't tell what the bytes are.
#[derive(Drop)]
pub struct SmallMemory {
    pub bytes: [u8; 512],
}

impl SmallMemory {
    /// The number of that width at an address.
    pub fn number(&self, va: u32, width: Width) -> u32
        requires inside { va < 512 }
        requires aligned { va % size_of width ≡ 0 }
    {
        let at = va as usize;
        match width {
            Width::Byte => u32::from(self.bytes[at]),
            Width::Half => u32::from(u16::from_le_bytes([self.bytes[at], self.bytes[at + 1]])),
            Width::Word => u32::from_le_bytes([
                self.bytes[at],
                self.bytes[at + 1],
                self.bytes[at + 2],
                self.bytes[at + 3],
            ]),
        }
    }

    /// Puts a word at an address.
    pub fn set_word(&mut self, at: usize, word: u32)
        requires inside { at ≤ 508 }
    {
        self.bytes[at..at + 4].copy_from_slice(&word.to_le_bytes());
    }
}

impl UserMemory for SmallMemory {
    ghost use Rattle.std.specs.Prelude.{None, false, nat_lt, nat_le, ◌&&◌};
    ghost use Rattle.std.proofs.Common.{rules};

    ghost may = { λ memory access a. nat_lt a 512 };

    ghost console = { λ memory a. nat_le 496 a && nat_lt a 512 };

    ghost content = { λ memory. None };

    ghost out = { λ memory a. false };

    ghost timer = { λ memory. None };

    ghost fit = { λ memory. Unit {0} };

    ghost faults = { λ memory. 0 };

    ghost same_rest = { λ a b. Unit {0} };

    fn fetch(&mut self, va: u32) -> Result<Option<u32>, Failed> {
        if va >= 512 {
            return Ok(None);
        }
        Ok(Some(self.number(va, Width::Word)))
    }

    fn load(&mut self, va: u32, width: Width) -> Result<Option<u32>, Failed> {
        if va >= 512 {
            return Ok(None);
        }
        Ok(Some(self.number(va, width)))
    }

    fn store(&mut self, va: u32, width: Width, value: u32) -> Result<Stored, Failed> {
        if va >= 512 {
            return Ok(Stored::Fault);
        }
        if va >= 496 {
            return Ok(Stored::Device(va % 4096));
        }
        let at = va as usize;
        let bytes = value.to_le_bytes();
        match width {
            Width::Byte => self.bytes[at] = bytes[0],
            Width::Half => self.bytes[at..at + 2].copy_from_slice(&bytes[..2]),
            Width::Word => self.bytes[at..at + 4].copy_from_slice(&bytes),
        }
        Ok(Stored::Done)
    }

    fn can_store(&self, va: u32, _width: Width) -> bool {
        va < 512
    }

    ghost bounded = { Prim.search rules };

    ghost rest_over = { λ a b c h k. tt };
}
