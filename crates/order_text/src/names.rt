//! The names of servers.

ghost use Rattle.std.specs.List.{list_all, suffix_len};
ghost use Rattle.std.specs.Prelude.{◌≡◌, ◌+◌, ◌++◌, true, IfOk, length, OnOk};
ghost use Rattle.order_text.specs.Names.{is_blank, is_letter, is_text, name_text, numbers_text, packed_letters, packed_text};
ghost use Rattle.order_text.specs.Names.{without_blanks};

use crate::text::{put, put_hexadecimal};
use std::alloc::{AllocError, Global};

/// Whether what has this code is printed as it is.
fn is_letter(code: u32) -> bool
    ensures { result ≡ is_letter code }
{
    32 < code && code < 127
}

/// Whether each word is a letter.
fn are_letters(words: &[u32]) -> bool
    ensures { result ≡ list_all is_letter words.now }
{
    words.iter().all(|word| is_letter(*word))
}

/// Whether each byte is a letter.
fn are_bytes_letters(bytes: &[u8]) -> bool
    ensures { result ≡ list_all is_letter bytes.now }
{
    bytes.iter().all(|byte| is_letter(u32::from(*byte)))
}

/// Whether there are letters, and nothing else.
fn is_text(letters: &[u8]) -> bool
    ensures { result ≡ is_text letters.now }
{
    !letters.is_empty() && are_bytes_letters(letters)
}

/// The four letters of each word.
fn packed_letters(alloc: Global, words: &[u32]) -> Result<Vec<u8>, AllocError>
    ensures { IfOk result (λ letters. letters.items ≡ packed_letters words.now) }
{
    let mut letters = Vec::new(alloc);
    for word in words {
        letters.extend_from_slice(&word.to_le_bytes())?;
    }
    Ok(letters)
}

/// How many letters there are without the blanks at the end.
fn length_without_blanks(letters: &[u8]) -> usize
    ensures { result + suffix_len is_blank letters.now ≡ length letters.now }
{
    let mut end = letters.len();
    while end > 0 && (letters[end - 1] == b' ' || letters[end - 1] == 0) {
        end -= 1;
    }
    end
}

/// The letters without the blanks at the end.
fn without_blanks(letters: &[u8]) -> &[u8]
    ensures { result.now ≡ without_blanks letters.now }
{
    &letters[..length_without_blanks(letters)]
}

/// Appends words that are letters.
fn put_letters(text: &mut Vec<u8>, words: &[u32]) -> Result<(), AllocError>
    requires { list_all is_letter words.now ≡ true }
    ensures { OnOk result (text.new.items ≡ text.old.items ++ words.now) }
{
    for word in words {
        text.push(*word as u8)?;
    }
    Ok(())
}

/// Appends words as numbers, with points between them.
fn put_numbers(text: &mut Vec<u8>, words: &[u32]) -> Result<(), AllocError>
    ensures { OnOk result (text.new.items ≡ text.old.items ++ numbers_text words.now) }
{
    let Some((first, others)) = words.split_first() else {
        return Ok(());
    };
    put_hexadecimal(text, *first)?;
    for word in others {
        text.push(b'.')?;
        put_hexadecimal(text, *word)?;
    }
    Ok(())
}

/// Appends these letters where they are a text, and else the words as numbers.
fn put_packed(text: &mut Vec<u8>, letters: &[u8], words: &[u32]) -> Result<(), AllocError>
    ensures { OnOk result (text.new.items ≡ text.old.items ++ packed_text letters.now words.now) }
{
    if is_text(letters) {
        put(text, letters)
    } else {
        put_numbers(text, words)
    }
}

/// Appends the name of the server with this identifier.
pub fn put_name(text: &mut Vec<u8>, sid: &[u32; 4]) -> Result<(), AllocError>
    ensures { OnOk result (text.new.items ≡ text.old.items ++ name_text (record { 0 = sid.now })) }
{
    if are_letters(sid) {
        return put_letters(text, sid);
    }
    let letters = packed_letters(*text.allocator(), sid)?;
    put_packed(text, without_blanks(&letters), sid)
}
