//! Images of processes that have one section of code each.

use crate::book::Book;
use crate::literals::{number, place};
use crate::wrong::Wrong;
use kernel_args::{Args, ProcArgs, Section, writable, write_args};
use std::alloc::Global;
use xk_base::Row;
use xk_base::limits::PROCESS_LIMIT;

/// The address of the code.
const START: u32 = 0x1_0000;

/// The greatest number of words of code; zeros stand behind fewer.
const ROOM: usize = 512;

/// Where the second program of a process begins, in words.
const SECOND: usize = 256;

/// The size of the code in bytes.
const SIZE: u32 = 2048;

/// The size of RAM in bytes: 4,096 frames.
const RAM: u32 = 0x100_0000;

/// The code of the programs and words that have a `+` between them.
fn joined(alloc: Global, book: &Book, text: &str) -> Result<Vec<u32>, Wrong> {
    let mut code = Vec::new(alloc);
    for part in text.split('+') {
        if part.starts_with("0x") {
            code.push(number(part)?)?;
        } else {
            code.extend_from_slice(book.programs.get(part)?.as_slice())?;
        }
    }
    Ok(code)
}

/// The code of a process: of its first thread, and behind a `/` of one that begins at 0x10400.
fn code_of(alloc: Global, book: &Book, text: &str) -> Result<Vec<u32>, Wrong> {
    let Some((first, second)) = text.split_once('/') else {
        return joined(alloc, book, text);
    };
    let mut code = joined(alloc, book, first)?;
    if code.len() > SECOND {
        return Err(Wrong::Machine);
    }
    code.resize(SECOND, 0)?;
    code.extend_from_slice(joined(alloc, book, second)?.as_slice())?;
    Ok(code)
}

/// The codes of the processes of a line. `N*` before one says that there are N of them.
fn codes_of(alloc: Global, book: &Book, text: &str) -> Result<Vec<Vec<u32>>, Wrong> {
    let mut codes = Vec::new(alloc);
    for word in text.split_ascii_whitespace() {
        let (count, word) = match word.split_once('*') {
            None => (1, word),
            Some((count, word)) => (place(count)?, word),
        };
        for _ in 0..count {
            codes.push(code_of(alloc, book, word)?)?;
        }
    }
    Ok(codes)
}

/// A process whose code stands in the file from `load` on.
fn process(alloc: Global, load: u32) -> Result<ProcArgs, Wrong> {
    let mut sections = Row::new(alloc);
    sections.push(Section {
        addr: START,
        size: SIZE,
        flags: 4,
    })?;
    Ok(ProcArgs {
        load,
        entry: START,
        check: None,
        sections,
    })
}

/// The row of tags of so many processes.
fn tags(alloc: Global, count: u32) -> Result<Row<u8>, Wrong> {
    if count > PROCESS_LIMIT {
        return Err(Wrong::Machine);
    }
    let words = 7 + 6 * count;
    let mut procs = Row::new(alloc);
    for at in 0..count {
        procs.push(process(alloc, words * 4 + at * SIZE)?)?;
    }
    let args = Args {
        words,
        version: 1,
        ram_start: 0x4000_0000,
        ram_size: RAM,
        ram_name: *b"sram",
        slots: None,
        procs,
        names: Row::new(alloc),
    };
    if !writable(&args) {
        return Err(Wrong::Machine);
    }
    Ok(write_args(alloc, &args)?)
}

/// Appends words, each its lowest byte first.
pub fn push_words(bytes: &mut Vec<u8>, words: &[u32]) -> Result<(), Wrong> {
    for word in words {
        bytes.extend_from_slice(&word.to_le_bytes())?;
    }
    Ok(())
}

/// Appends the image of the processes of a line.
pub fn push_image(
    alloc: Global,
    bytes: &mut Vec<u8>,
    book: &Book,
    text: &str,
) -> Result<(), Wrong> {
    let mut codes = codes_of(alloc, book, text)?;
    let count = u32::try_from(codes.len()).map_err(|_| Wrong::Machine)?;
    bytes.extend_from_slice(tags(alloc, count)?.as_slice())?;
    for code in codes.iter_mut() {
        if code.len() > ROOM {
            return Err(Wrong::Machine);
        }
        code.resize(ROOM, 0)?;
        push_words(bytes, code.as_slice())?;
    }
    Ok(())
}
