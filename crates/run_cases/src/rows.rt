//! Rows: a case is played once for each, with its fields in the place of `$1`, `$2` and so on.

use crate::book::Book;
use crate::lines::Block;
use crate::literals::next_word;
use crate::wrong::{BadLine, Wrong};
use std::alloc::Global;

/// The rows of a case: its own, and those of tables that it names.
pub fn rows_of(alloc: Global, book: &Book, block: &Block<'_>) -> Result<Vec<String>, BadLine> {
    let mut rows = Vec::new(alloc);
    for line in &block.lines {
        push_rows(alloc, &mut rows, book, line.text).map_err(|wrong| wrong.at(line.number))?;
    }
    Ok(rows)
}

fn push_rows(alloc: Global, rows: &mut Vec<String>, book: &Book, text: &str) -> Result<(), Wrong> {
    let (word, rest) = next_word(text);
    match word {
        "row" => rows.push(String::from_str(alloc, rest)?)?,
        "rows" => {
            for row in book.rows.get(rest)? {
                rows.push(String::from_str(alloc, row.as_str())?)?;
            }
        }
        _ => {}
    }
    Ok(())
}

/// A field of a row, counted from 1, without the quotes that it may stand in.
fn field(row: &str, number: u32) -> Result<&str, Wrong> {
    let Some(before) = number.checked_sub(1) else {
        return Err(Wrong::Field);
    };
    let field = row.split(';').nth(before as usize).ok_or(Wrong::Field)?;
    let field = field.trim();
    let bare = field
        .strip_prefix('"')
        .and_then(|rest| rest.strip_suffix('"'));
    Ok(bare.unwrap_or(field))
}

/// Appends what stands behind a `$`: the number of a field, and further text.
fn push_field(filled: &mut String, row: &str, text: &str) -> Result<(), Wrong> {
    let mut rest = text.chars();
    let digit = rest.next().and_then(|digit| digit.to_digit(10));
    filled.push_str(field(row, digit.ok_or(Wrong::Field)?)?)?;
    filled.push_str(rest.as_str())?;
    Ok(())
}

/// A text with the fields of a row in it.
pub fn filled(alloc: Global, text: &str, row: &str) -> Result<String, Wrong> {
    let mut filled = String::new(alloc);
    let mut is_first = true;
    for part in text.split('$') {
        if is_first {
            filled.push_str(part)?;
        } else {
            push_field(&mut filled, row, part)?;
        }
        is_first = false;
    }
    Ok(filled)
}
