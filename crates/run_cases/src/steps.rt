//! The steps that make a byte string: some append bytes, and some change those that are there.

use crate::book::Book;
use crate::literals::{next_word, number, numbers, place, quoted};
use crate::machines::{push_image, push_words};
use crate::transcripts::push_line;
use crate::wrong::Wrong;
use kernel_args::crc_x25;
use std::alloc::Global;

/// Where the check number of a state stands, and where the bytes begin that it is of.
const STATE_CHECK: usize = 12;

const STATE_PARTS: usize = 16;

/// Where the size of RAM stands in an image.
const IMAGE_RAM: usize = 20;

/// So many bytes that are all the same.
fn push_same(bytes: &mut Vec<u8>, count: usize, byte: u8) -> Result<(), Wrong> {
    let page = [byte; 4096];
    for _ in 0..count / 4096 {
        bytes.extend_from_slice(&page)?;
    }
    bytes.extend_from_slice(&page[..count % 4096])?;
    Ok(())
}

/// A count and a byte.
fn push_filled(bytes: &mut Vec<u8>, text: &str) -> Result<(), Wrong> {
    let (count, byte) = next_word(text);
    let byte = u8::try_from(number(byte)?).map_err(|_| Wrong::Number)?;
    push_same(bytes, place(count)?, byte)
}

/// The bytes of a byte string between two places.
fn push_part(bytes: &mut Vec<u8>, book: &Book, text: &str) -> Result<(), Wrong> {
    let (name, rest) = next_word(text);
    let (from, to) = next_word(rest);
    let part = book.texts.get(name)?.get(place(from)?..place(to)?);
    bytes.extend_from_slice(part.ok_or(Wrong::Place)?)?;
    Ok(())
}

/// Where a line begins that has so many lines before it.
fn line_start(bytes: &[u8], lines: usize) -> Option<usize> {
    let mut left = lines;
    for (at, byte) in bytes.iter().enumerate() {
        if left == 0 {
            return Some(at);
        }
        if *byte == b'\n' {
            left -= 1;
        }
    }
    (left == 0).then_some(bytes.len())
}

/// The first lines of a byte string, or those behind them.
fn push_lines(bytes: &mut Vec<u8>, book: &Book, text: &str, are_first: bool) -> Result<(), Wrong> {
    let (count, name) = next_word(text);
    let all = book.texts.get(name)?.as_slice();
    let start = line_start(all, place(count)?).ok_or(Wrong::Place)?;
    let part = if are_first {
        all.get(..start)
    } else {
        all.get(start..)
    };
    bytes.extend_from_slice(part.ok_or(Wrong::Place)?)?;
    Ok(())
}

/// Makes the check number of the tag at a place right.
fn put_check(bytes: &mut [u8], tag: usize) -> Result<(), Wrong> {
    let (_, rest) = bytes.split_at_mut_checked(tag).ok_or(Wrong::Place)?;
    if rest.len() < 8 {
        return Err(Wrong::Place);
    }
    let size = 4 * usize::from(u16::from_le_bytes([rest[6], rest[7]]));
    let contents = rest.get(8..8 + size).ok_or(Wrong::Place)?;
    let check = crc_x25(contents);
    rest[4..6].copy_from_slice(&check.to_le_bytes());
    Ok(())
}

/// A tag of a name of four letters, and its words.
fn push_tag(alloc: Global, bytes: &mut Vec<u8>, text: &str) -> Result<(), Wrong> {
    let (name, rest) = next_word(text);
    let words = numbers(alloc, rest)?;
    let count = u16::try_from(words.len()).map_err(|_| Wrong::Number)?;
    let start = bytes.len();
    bytes.extend_from_slice(name.as_bytes())?;
    bytes.extend_from_slice(&[0, 0])?;
    bytes.extend_from_slice(&count.to_le_bytes())?;
    push_words(bytes, words.as_slice())?;
    put_check(bytes.as_mut_slice(), start)
}

/// The bytes of these digits.
fn push_hex(alloc: Global, bytes: &mut Vec<u8>, text: &str) -> Result<(), Wrong> {
    for digits in text.split_ascii_whitespace() {
        let part = hex::decode(alloc, digits).map_err(|_| Wrong::Hex)?;
        bytes.extend_from_slice(part.as_slice())?;
    }
    Ok(())
}

/// Does a step that appends bytes, and answers whether it is one.
fn append(alloc: Global, bytes: &mut Vec<u8>, book: &Book, text: &str) -> Result<bool, Wrong> {
    let (step, rest) = next_word(text);
    match step {
        "text" => bytes.extend_from_slice(quoted(alloc, rest)?.as_slice())?,
        "line" => push_line(bytes, rest)?,
        "hex" => push_hex(alloc, bytes, rest)?,
        "words" => push_words(bytes, numbers(alloc, rest)?.as_slice())?,
        "fill" => push_filled(bytes, rest)?,
        "code" => push_words(bytes, book.programs.get(rest)?.as_slice())?,
        "copy" => bytes.extend_from_slice(book.texts.get(rest)?.as_slice())?,
        "part" => push_part(bytes, book, rest)?,
        "first-lines" => push_lines(bytes, book, rest, true)?,
        "lines-behind" => push_lines(bytes, book, rest, false)?,
        "tag" => push_tag(alloc, bytes, rest)?,
        "machine" => push_image(alloc, bytes, book, rest)?,
        _ => return Ok(false),
    }
    Ok(true)
}

/// A step that appends bytes is done so many times.
fn append_times(alloc: Global, bytes: &mut Vec<u8>, book: &Book, text: &str) -> Result<(), Wrong> {
    let (count, step) = next_word(text);
    let mut part = Vec::new(alloc);
    if !append(alloc, &mut part, book, step)? {
        return Err(Wrong::Keyword);
    }
    for _ in 0..number(count)? {
        bytes.extend_from_slice(part.as_slice())?;
    }
    Ok(())
}

/// Writes a word at a place.
fn put_word(bytes: &mut [u8], at: usize, word: u32) -> Result<(), Wrong> {
    let (_, rest) = bytes.split_at_mut_checked(at).ok_or(Wrong::Place)?;
    if rest.len() < 4 {
        return Err(Wrong::Place);
    }
    rest[..4].copy_from_slice(&word.to_le_bytes());
    Ok(())
}

/// Writes words, each behind its place.
fn patch(alloc: Global, bytes: &mut [u8], text: &str) -> Result<(), Wrong> {
    for pair in numbers(alloc, text)?.as_slice().chunks(2) {
        match pair {
            [at, word] => put_word(bytes, *at as usize, *word)?,
            _ => return Err(Wrong::Number),
        }
    }
    Ok(())
}

/// Changes the lowest bit of the byte at a place.
fn flip(bytes: &mut [u8], text: &str) -> Result<(), Wrong> {
    let byte = bytes.get_mut(place(text)?).ok_or(Wrong::Place)?;
    *byte ^= 1;
    Ok(())
}

/// Keeps so many bytes from the front.
fn cut(bytes: &mut Vec<u8>, text: &str) -> Result<(), Wrong> {
    let length = place(text)?;
    if length > bytes.len() {
        return Err(Wrong::Place);
    }
    bytes.truncate(length);
    Ok(())
}

/// Does a step.
pub fn do_step(alloc: Global, bytes: &mut Vec<u8>, book: &Book, text: &str) -> Result<(), Wrong> {
    if append(alloc, bytes, book, text)? {
        return Ok(());
    }
    let (step, rest) = next_word(text);
    match step {
        "times" => append_times(alloc, bytes, book, rest),
        "patch" => patch(alloc, bytes.as_mut_slice(), rest),
        "flip" => flip(bytes.as_mut_slice(), rest),
        "cut" => cut(bytes, rest),
        "ram" => {
            put_word(bytes.as_mut_slice(), IMAGE_RAM, number(rest)?)?;
            put_check(bytes.as_mut_slice(), 0)
        }
        "checked" => put_check(bytes.as_mut_slice(), place(rest)?),
        "checked-state" => {
            let parts = bytes.get(STATE_PARTS..).ok_or(Wrong::Place)?;
            let check = u32::from(crc_x25(parts));
            put_word(bytes.as_mut_slice(), STATE_CHECK, check)
        }
        _ => Err(Wrong::Keyword),
    }
}
