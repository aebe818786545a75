//! Bits put together, and the signed numbers that they spell.

ghost use Rattle.std.specs.Prelude.{◌≡◌, ◌<◌, ◌≤◌, ◌+◌, ◌*◌, ◌^◌};
ghost use Rattle.xk_base.specs.Numbers.Fields.{sign_extended};

/// The number `high` with `width` more bits behind its own, which spell `low`.
pub fn joined(high: u32, width: u32, low: u32) -> u32
    requires room { high * 2 ^ width < 2 ^ 32 }
    requires some { width < 32 }
    requires fits { low < 2 ^ width }
    ensures { result ≡ high * 2 ^ width + low }
{
    high << width | low
}

/// The signed number that `width` bits spell in two's complement, of which the highest is the sign.
pub fn sign_extend(bits: u32, width: u32) -> i32
    requires some { 1 ≤ width }
    requires room { width ≤ 32 }
    requires fits { bits < 2 ^ width }
    ensures { result ≡ sign_extended width bits }
{
    let unused = 32 - width;
    (bits << unused).cast_signed() >> unused
}
