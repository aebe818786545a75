//! The bytes of a console as text.

ghost use Rattle.std.specs.Prelude.{◌≡◌, ◌++◌, OnOk};
ghost use Rattle.order_text.specs.Consoles.{console_text, digits_text, escape_letter, escaped, escaped_by, is_printed, quoted};

use crate::text::{put, put_digits};
use std::alloc::AllocError;

const BACKSLASH: u8 = b'\\';

const QUOTE: u8 = b'"';

/// Whether the byte stands in a text as itself.
fn is_printed(byte: u8) -> bool
    ensures { result ≡ is_printed byte }
{
    31 < byte && byte < 127
}

/// The letter that stands behind a backslash in place of the byte, if one does.
fn escape_letter(byte: u8) -> Option<u8>
    ensures { result ≡ escape_letter byte }
{
    if byte == b'\n' {
        return Some(b'n');
    }
    if byte == b'\r' {
        return Some(b'r');
    }
    if byte == b'\t' {
        return Some(b't');
    }
    if byte == BACKSLASH || byte == QUOTE {
        return Some(byte);
    }
    None
}

/// Appends a byte for which no letter stands.
fn put_plain(text: &mut Vec<u8>, byte: u8) -> Result<(), AllocError>
    ensures { OnOk result (text.new.items ≡ text.old.items ++ escaped_by None byte) }
{
    if is_printed(byte) {
        return put(text, &[byte]);
    }
    put(text, &[BACKSLASH, b'x'])?;
    put_digits(text, &[byte])
}

/// Appends a byte as it stands in a text.
fn put_escaped(text: &mut Vec<u8>, byte: u8) -> Result<(), AllocError>
    ensures { OnOk result (text.new.items ≡ text.old.items ++ escaped byte) }
{
    match escape_letter(byte) {
        Some(letter) => put(text, &[BACKSLASH, letter]),
        None => put_plain(text, byte),
    }
}

/// Appends bytes in quotes.
fn put_quoted(text: &mut Vec<u8>, bytes: &[u8]) -> Result<(), AllocError>
    ensures { OnOk result (text.new.items ≡ text.old.items ++ quoted bytes.now) }
{
    put(text, &[QUOTE])?;
    for byte in bytes {
        put_escaped(text, *byte)?;
    }
    put(text, &[QUOTE])
}

/// Appends bytes as hexadecimal digits.
fn put_all_digits(text: &mut Vec<u8>, bytes: &[u8]) -> Result<(), AllocError>
    ensures { OnOk result (text.new.items ≡ text.old.items ++ digits_text bytes.now) }
{
    if bytes.is_empty() {
        return put(text, b"empty");
    }
    put_digits(text, bytes)
}

/// Appends the bytes of the console, as digits or in quotes.
pub fn put_console(text: &mut Vec<u8>, console: &[u8], hex: bool) -> Result<(), AllocError>
    ensures { OnOk result (text.new.items ≡ text.old.items ++ console_text hex console.now) }
{
    if hex {
        put_all_digits(text, console)
    } else {
        put_quoted(text, console)
    }
}
