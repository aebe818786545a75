//! Words at the front of bytes.

ghost use Rattle.std.specs.Prelude.{◌≡◌, ◌-◌, length};
ghost use Rattle.suspend_image.specs.Reading.{Gives, word_at, word_in as word_in_at, word_if as word_if_at, four_at};
ghost use Rattle.snapshot_rows.specs.Order.{after as after_of, least_first as least_first_of, least_second as least_second_of};

use crate::reading::broken::Broken;
use byteorder::{ByteOrder, LittleEndian};

/// The greatest word.
pub const GREATEST: u64 = u32::MAX as u64;

/// Any word.
#[tactic(auto, unfolding(crate::specs::Reading::word_at))]
pub fn word(bytes: &[u8]) -> Result<(u32, &[u8]), Broken>
    ensures { Gives (λ x. (x.0, x.1.now)) result (word_at bytes.now) }
{
    if bytes.len() < 4 {
        return Err(Broken::Form(bytes.len()));
    }
    let (front, rest) = bytes.split_at(4);
    Ok((LittleEndian::read_u32(front), rest))
}

/// A word from `least` to `most`.
#[tactic(auto, unfolding(crate::specs::Reading::word_in))]
pub fn word_in(least: u64, most: u64, bytes: &[u8]) -> Result<(u32, &[u8]), Broken>
    ensures { Gives (λ x. (x.0, x.1.now)) result (word_in_at least most bytes.now) }
{
    let (number, rest) = word(bytes)?;
    if (number as u64) < least || number as u64 > most {
        return Err(Broken::Form(bytes.len()));
    }
    Ok((number, rest))
}

/// The same of a field that applies, and 0 of one that doesn't.
#[tactic(auto, unfolding(crate::specs::Reading::word_if))]
pub fn word_if(applies: bool, least: u64, most: u64, bytes: &[u8]) -> Result<(u32, &[u8]), Broken>
    ensures { Gives (λ x. (x.0, x.1.now)) result (word_if_at applies least most bytes.now) }
{
    if applies {
        word_in(least, most, bytes)
    } else {
        word_in(0, 0, bytes)
    }
}

/// Four words.
#[tactic(auto, unfolding(crate::specs::Reading::four_at))]
pub fn four(bytes: &[u8]) -> Result<([u32; 4], &[u8]), Broken>
    ensures { Gives (λ x. (x.0, x.1.now)) result (four_at bytes.now) }
{
    let (a, rest) = word(bytes)?;
    let (b, rest) = word(rest)?;
    let (c, rest) = word(rest)?;
    let (d, rest) = word(rest)?;
    Ok(([a, b, c, d], rest))
}

/// The least number behind that of the row before.
pub fn after(before: Option<u32>) -> u64
    ensures { result ≡ after_of before }
{
    match before {
        None => 0,
        Some(before) => before as u64 + 1,
    }
}

/// The least first number of a key of two behind that of the row before.
pub fn least_first(least: u64, before: Option<(u32, u32)>) -> u64
    ensures { result ≡ least_first_of least before }
{
    match before {
        None => least,
        Some((first, _)) => first as u64,
    }
}

/// The least second number beside that first one.
pub fn least_second(least: u64, before: Option<(u32, u32)>, first: u32) -> u64
    ensures { result ≡ least_second_of least before first }
{
    match before {
        Some((same, second)) if same == first => second as u64 + 1,
        _ => least,
    }
}
