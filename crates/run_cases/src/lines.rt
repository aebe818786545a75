//! The lines of a case file, and its blocks.

use crate::wrong::{BadLine, Wrong};
use std::alloc::Global;

/// A line that says something.
#[derive(Clone, Copy, Debug)]
pub struct Line<'a> {
    /// Its number, counted from 1.
    pub number: u32,
    /// How deep it is indented: 0, 1 or 2.
    pub depth: u8,
    /// Its text, without the spaces at its ends.
    pub text: &'a str,
}

/// A line that isn't indented, and the indented ones below it.
#[derive(Debug, Drop)]
pub struct Block<'a> {
    pub head: Line<'a>,
    pub lines: Vec<Line<'a>>,
}

/// How deep a line is indented, by two spaces each.
fn depth_of(text: &str) -> Result<u8, Wrong> {
    let (depth, rest) = if let Some(rest) = text.strip_prefix("    ") {
        (2, rest)
    } else if let Some(rest) = text.strip_prefix("  ") {
        (1, rest)
    } else {
        (0, text)
    };
    if rest.starts_with(' ') {
        return Err(Wrong::Indent);
    }
    Ok(depth)
}

/// An empty line and a comment say nothing.
fn line_of(number: u32, text: &str) -> Result<Option<Line<'_>>, Wrong> {
    let said = text.trim();
    if said.is_empty() || said.starts_with('#') {
        return Ok(None);
    }
    let depth = depth_of(text)?;
    Ok(Some(Line {
        number,
        depth,
        text: said,
    }))
}

/// Adds a line to the last block, or begins another one with it.
fn add_line<'a>(alloc: Global, blocks: &mut Vec<Block<'a>>, line: Line<'a>) -> Result<(), Wrong> {
    if line.depth == 0 {
        let lines = Vec::new(alloc);
        blocks.push(Block { head: line, lines })?;
        return Ok(());
    }
    match blocks.last_mut() {
        None => Err(Wrong::Indent),
        Some(block) => {
            block.lines.push(line)?;
            Ok(())
        }
    }
}

/// The blocks of the text of a case file, in their order.
pub fn blocks(alloc: Global, text: &str) -> Result<Vec<Block<'_>>, BadLine> {
    let mut blocks = Vec::new(alloc);
    let mut number: u32 = 0;
    for text in text.lines() {
        number = number.wrapping_add(1);
        let line = line_of(number, text).map_err(|wrong| wrong.at(number))?;
        if let Some(line) = line {
            add_line(alloc, &mut blocks, line).map_err(|wrong| wrong.at(number))?;
        }
    }
    Ok(blocks)
}
