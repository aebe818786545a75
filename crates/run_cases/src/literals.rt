//! Words, numbers and texts of a line.

use crate::wrong::Wrong;
use std::alloc::Global;

/// The first word of a text, and what stands behind it.
pub fn next_word(text: &str) -> (&str, &str) {
    match text.split_once(' ') {
        None => (text, ""),
        Some((word, rest)) => (word, rest.trim_start()),
    }
}

/// A number in decimal digits, or in hexadecimal ones behind `0x`.
pub fn number(word: &str) -> Result<u32, Wrong> {
    let number = match word.strip_prefix("0x") {
        None => u32::from_str_radix(word, 10),
        Some(digits) => u32::from_str_radix(digits, 16),
    };
    number.map_err(|_| Wrong::Number)
}

/// The same as a place or a count.
pub fn place(word: &str) -> Result<usize, Wrong> {
    Ok(number(word)? as usize)
}

/// The numbers of a text, up to a comment.
pub fn numbers(alloc: Global, text: &str) -> Result<Vec<u32>, Wrong> {
    let mut numbers = Vec::new(alloc);
    for word in text.split_ascii_whitespace() {
        if word.starts_with('#') {
            break;
        }
        numbers.push(number(word)?)?;
    }
    Ok(numbers)
}

/// Appends what stands behind a backslash, whose first bytes name a byte.
fn push_escaped(bytes: &mut Vec<u8>, text: &[u8]) -> Result<(), Wrong> {
    let (byte, rest) = match text {
        [b'n', rest @ ..] => (b'\n', rest),
        [b'r', rest @ ..] => (b'\r', rest),
        [b't', rest @ ..] => (b'\t', rest),
        _ => return Err(Wrong::Text),
    };
    bytes.push(byte)?;
    bytes.extend_from_slice(rest)?;
    Ok(())
}

/// The bytes of a text in quotes. In it `\n`, `\r` and `\t` are a line feed, a carriage return and a tab.
pub fn quoted(alloc: Global, text: &str) -> Result<Vec<u8>, Wrong> {
    let inner = text.strip_prefix('"').ok_or(Wrong::Text)?;
    let inner = inner.strip_suffix('"').ok_or(Wrong::Text)?;
    let mut bytes = Vec::new(alloc);
    let mut is_first = true;
    for part in inner.split('\\') {
        if is_first {
            bytes.extend_from_slice(part.as_bytes())?;
        } else {
            push_escaped(&mut bytes, part.as_bytes())?;
        }
        is_first = false;
    }
    Ok(bytes)
}
