//! Blocks that name something for the cases behind them.

use crate::acts::push_act;
use crate::book::Book;
use crate::lines::Block;
use crate::literals::next_word;
use crate::steps::do_step;
use crate::transcripts::push_line;
use crate::wrong::{BadLine, Wrong};
use std::alloc::Global;

fn program_of(alloc: Global, block: &Block<'_>) -> Result<Vec<u32>, BadLine> {
    let mut code = Vec::new(alloc);
    for line in &block.lines {
        push_act(alloc, &mut code, line.text).map_err(|wrong| wrong.at(line.number))?;
    }
    Ok(code)
}

fn bytes_of(alloc: Global, book: &Book, block: &Block<'_>) -> Result<Vec<u8>, BadLine> {
    let mut bytes = Vec::new(alloc);
    for line in &block.lines {
        do_step(alloc, &mut bytes, book, line.text).map_err(|wrong| wrong.at(line.number))?;
    }
    Ok(bytes)
}

fn transcript_of(alloc: Global, block: &Block<'_>) -> Result<Vec<u8>, BadLine> {
    let mut bytes = Vec::new(alloc);
    for line in &block.lines {
        push_line(&mut bytes, line.text).map_err(|wrong| wrong.at(line.number))?;
    }
    Ok(bytes)
}

fn table_of(alloc: Global, block: &Block<'_>) -> Result<Vec<String>, BadLine> {
    let mut rows = Vec::new(alloc);
    for line in &block.lines {
        let row = String::from_str(alloc, line.text);
        let row = row.map_err(|_| Wrong::Memory.at(line.number))?;
        rows.push(row).map_err(|_| Wrong::Memory.at(line.number))?;
    }
    Ok(rows)
}

/// Enters into the book what a block names: a program, a byte string, the lines of a transcript or a table of rows.
pub fn define(alloc: Global, book: &mut Book, block: &Block<'_>) -> Result<(), BadLine> {
    let (kind, name) = next_word(block.head.text);
    let number = block.head.number;
    let entered = match kind {
        "program" => {
            let words = program_of(alloc, block)?;
            book.programs.put(alloc, name, words)
        }
        "bytes" => {
            let bytes = bytes_of(alloc, book, block)?;
            book.texts.put(alloc, name, bytes)
        }
        "lines" => {
            let bytes = transcript_of(alloc, block)?;
            book.texts.put(alloc, name, bytes)
        }
        "rows" => {
            let rows = table_of(alloc, block)?;
            book.rows.put(alloc, name, rows)
        }
        _ => Err(Wrong::Keyword),
    };
    entered.map_err(|wrong| wrong.at(number))
}

/// Two programs have the same words: those whose names stand in this block's first line.
pub fn are_same(book: &Book, block: &Block<'_>) -> Result<bool, BadLine> {
    let (_, names) = next_word(block.head.text);
    let (one, other) = next_word(names);
    let number = block.head.number;
    let one = book.programs.get(one).map_err(|wrong| wrong.at(number))?;
    let other = book.programs.get(other).map_err(|wrong| wrong.at(number))?;
    Ok(one.as_slice() == other.as_slice())
}
