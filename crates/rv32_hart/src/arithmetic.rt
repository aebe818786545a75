//! Arithmetic on words, which wraps (RISC-V Unprivileged ISA, 2.4, and chapter "M").

ghost use Rattle.std.specs.Prelude.{◌≡◌, ◌*◌, ◌/◌, ◌%◌, ◌^◌, ◌*ℤ◌, pos, nat_lt};
ghost use Rattle.machine_model.specs.Hart.Instructions.{as_word, signed, sum_of, difference_of, flag_of, signed_below, left_shift_of};
ghost use Rattle.machine_model.specs.Hart.Instructions.{right_shift_of, signed_right_shift_of, upper_half, signed_quotient, quotient};
ghost use Rattle.machine_model.specs.Hart.Instructions.{signed_remainder, remainder, sign_extended_byte, sign_extended_half};

/// An immediate as a word.
pub fn word(imm: i32) -> u32
    ensures { result ≡ as_word imm }
{
    imm.cast_unsigned()
}

/// The sum of a word and an immediate.
pub fn add_immediate(a: u32, imm: i32) -> u32
    ensures { result ≡ sum_of a (as_word imm) }
{
    a.wrapping_add_signed(imm)
}

/// 1 where the first word is below the second as signed numbers, else 0.
pub fn set_less_than(a: u32, b: u32) -> u32
    ensures { result ≡ flag_of (signed_below a b) }
{
    u32::from(is_signed_below(a, b))
}

/// 1 where the first word is below the second, else 0.
pub fn set_less_than_unsigned(a: u32, b: u32) -> u32
    ensures { result ≡ flag_of (nat_lt a b) }
{
    u32::from(a < b)
}

/// Whether the first word is below the second as signed numbers.
pub fn is_signed_below(a: u32, b: u32) -> bool
    ensures { result ≡ signed_below a b }
{
    a.cast_signed() < b.cast_signed()
}

/// Left by the low five bits of the second word.
pub fn shift_left(a: u32, b: u32) -> u32
    ensures { result ≡ left_shift_of a b }
{
    a.wrapping_shl(b)
}

/// Right by the low five bits of the second word; zeros come in.
pub fn shift_right(a: u32, b: u32) -> u32
    ensures { result ≡ right_shift_of a b }
{
    a.wrapping_shr(b)
}

/// Right by the low five bits of the second word; copies of the sign come in.
pub fn shift_right_signed(a: u32, b: u32) -> u32
    ensures { result ≡ signed_right_shift_of a b }
{
    a.cast_signed().wrapping_shr(b).cast_unsigned()
}

/// MULH: the upper word of the product of signed numbers.
pub fn multiply_high(a: u32, b: u32) -> u32
    ensures { result ≡ upper_half (signed a *ℤ signed b) }
{
    upper_word(signed_product(a, b).cast_unsigned())
}

/// The product of two words as signed numbers.
fn signed_product(a: u32, b: u32) -> i64
    ensures { result ≡ signed a *ℤ signed b }
{
    i64::from(a.cast_signed()) * i64::from(b.cast_signed())
}

/// MULHSU: the upper word of the product of a signed number and an unsigned one.
pub fn multiply_high_mixed(a: u32, b: u32) -> u32
    ensures { result ≡ upper_half (signed a *ℤ pos b) }
{
    let product = i64::from(a.cast_signed()) * i64::from(b);
    upper_word(product.cast_unsigned())
}

/// MULHU: the upper word of the product of unsigned numbers.
pub fn multiply_high_unsigned(a: u32, b: u32) -> u32
    ensures { result ≡ a * b / 2 ^ 32 }
{
    upper_word(u64::from(a) * u64::from(b))
}

/// The upper word of a number of 64 bits.
fn upper_word(product: u64) -> u32
    ensures { result ≡ product / 2 ^ 32 }
{
    (product >> 32) as u32
}

/// DIV: the quotient of signed numbers, rounded towards 0.
pub fn divide(a: u32, b: u32) -> u32
    ensures { result ≡ signed_quotient a b }
{
    if b == 0 {
        u32::MAX
    } else {
        a.cast_signed()
            .wrapping_div(b.cast_signed())
            .cast_unsigned()
    }
}

/// DIVU: the quotient of unsigned numbers.
pub fn divide_unsigned(a: u32, b: u32) -> u32
    ensures { result ≡ quotient a b }
{
    if b == 0 { u32::MAX } else { a / b }
}

/// REM: the remainder of signed numbers, with the sign of the dividend.
pub fn remainder(a: u32, b: u32) -> u32
    ensures { result ≡ signed_remainder a b }
{
    if b == 0 {
        a
    } else {
        a.cast_signed()
            .wrapping_rem(b.cast_signed())
            .cast_unsigned()
    }
}

/// REMU: the remainder of unsigned numbers.
pub fn remainder_unsigned(a: u32, b: u32) -> u32
    ensures { result ≡ remainder a b }
{
    if b == 0 { a } else { a % b }
}

/// The low byte of a word, its sign extended.
pub fn sign_extend_byte(a: u32) -> u32
    ensures { result ≡ sign_extended_byte a }
{
    i32::from(((a % 256) as u8).cast_signed()).cast_unsigned()
}

/// The low half of a word, its sign extended.
pub fn sign_extend_half(a: u32) -> u32
    ensures { result ≡ sign_extended_half a }
{
    i32::from(((a % 65536) as u16).cast_signed()).cast_unsigned()
}
