//! The word of an atomic instruction.

ghost use Rattle.std.specs.Prelude.{◌≡◌, ◌<◌, ◌+◌, ◌*◌, ◌^◌};
ghost use Rattle.rv32_atomics.specs.Table.{IsInRange, fields_of, spelling};

use crate::atomic::Atomic;
use crate::decoding::{AMO, WORD};
use crate::fields::fields_of;

/// The word of the instruction, from which `decode_atomic` reads it back.
pub fn encode_atomic(a: Atomic) -> u32
    requires { IsInRange a }
    ensures { result ≡ spelling a }
{
    let f = fields_of(a);
    let order = joined(joined(f.funct5, 1, u32::from(f.aq)), 1, u32::from(f.rl));
    let sources = joined(joined(order, 5, u32::from(f.rs2)), 5, u32::from(f.rs1));
    joined(joined(joined(sources, 3, WORD), 5, u32::from(f.rd)), 7, AMO)
}

/// The number `high` with `width` more bits behind its own, which spell `low`.
fn joined(high: u32, width: u32, low: u32) -> u32
    requires room { high * 2 ^ width < 2 ^ 32 }
    requires some { width < 32 }
    requires fits { low < 2 ^ width }
    ensures { result ≡ high * 2 ^ width + low }
{
    high << width | low
}
