//! Plays the cases of the files that lie where it runs, and says how many they were, or which is the first that isn't as
//! wanted. `docs/cases.md` has the form of the files.
#![tactic(auto)]

mod acts;
mod book;
mod case;
mod draft;
mod judging;
mod lines;
mod literals;
mod machines;
mod parts;
mod playing;
mod rows;
mod steps;
mod sweeping;
mod telling;
mod transcripts;
mod wrong;

use anyhow::{Context, Result, anyhow, ensure};
use book::Book;
use draft::case_of;
use judging::Left;
use lines::{Block, blocks};
use parts::{are_same, define};
use rows::rows_of;
use std::alloc::Global;
use std::fs;
use std::rt::Files;
use sweeping::{Played, play_case};
use telling::tell_difference;

/// The files of cases. What the first names is there for all.
const FILES: [&str; 30] = [
    "common.cases",
    "first.cases",
    "commands.cases",
    "largest.cases",
    "ledgers.cases",
    "deaths.cases",
    "examples.cases",
    "forwards.cases",
    "interrupts.cases",
    "lends.cases",
    "pages.cases",
    "memory.cases",
    "processes.cases",
    "resuming.cases",
    "scalars.cases",
    "servers.cases",
    "swapping.cases",
    "timer.cases",
    "versions.cases",
    "atomics.cases",
    "calls.cases",
    "code.cases",
    "damage.cases",
    "ends.cases",
    "exhausting.cases",
    "failing.cases",
    "lines.cases",
    "loans.cases",
    "states.cases",
    "sweeps.cases",
];

/// Plays a case, and keeps its output where the case says so.
fn play_row<R: Print>(
    rt: &R,
    alloc: Global,
    book: &mut Book,
    block: &Block<'_>,
    row: Option<&str>,
) -> Result<()> {
    let case = case_of(alloc, book, block, row)?;
    let Played { left, difference } = play_case(alloc, &case)?;
    if let Some(difference) = difference {
        tell_difference(rt, &case, &left, row)?;
        let (line, name) = (block.head.number, block.head.text);
        return Err(anyhow!("line {line}: {name}: not as wanted: {difference}"));
    }
    if let Some(name) = &case.keep {
        let Left {
            number: _,
            note: _,
            out,
            notes: _,
        } = left;
        book.texts.put(alloc, name.as_str(), out)?;
    }
    Ok(())
}

/// Plays a case of a file, once for each of its rows. Answers how many cases it was.
fn play_block<R: Print>(rt: &R, alloc: Global, book: &mut Book, block: &Block<'_>) -> Result<u64> {
    let rows = rows_of(alloc, book, block)?;
    if rows.is_empty() {
        play_row(rt, alloc, book, block, None)?;
        return Ok(1);
    }
    let mut count: u64 = 0;
    for row in &rows {
        play_row(rt, alloc, book, block, Some(row.as_str()))?;
        count = count.wrapping_add(1);
    }
    Ok(count)
}

/// Plays a case, sees that two programs are the same, or enters what a block names. Answers how many cases it was.
fn do_block<R: Print>(rt: &R, alloc: Global, book: &mut Book, block: &Block<'_>) -> Result<u64> {
    let text = block.head.text;
    if text.starts_with("case ") {
        return play_block(rt, alloc, book, block);
    }
    if text.starts_with("same ") {
        let line = block.head.number;
        ensure!(are_same(book, block)?, "line {line}: {text}: they aren't");
        return Ok(1);
    }
    define(alloc, book, block)?;
    Ok(0)
}

/// Plays the cases of a file. Answers how many they were.
fn play_text<R: Print>(rt: &R, alloc: Global, book: &mut Book, text: &str) -> Result<u64> {
    let mut count: u64 = 0;
    for block in &blocks(alloc, text)? {
        count = count.wrapping_add(do_block(rt, alloc, book, block)?);
    }
    Ok(count)
}

/// Plays the cases of all files. Answers how many they were.
fn play_files<R: Files + Print + AllocGlobal>(rt: &R) -> Result<u64> {
    let alloc = rt.alloc();
    let mut book = Book::new(alloc);
    let mut common = None;
    let mut count: u64 = 0;
    for name in FILES {
        let text = fs::read_to_string(rt, name).context(name)?;
        let played = play_text(rt, alloc, &mut book, text.as_str()).context(name)?;
        count = count.wrapping_add(played);
        let mark = *common.get_or_insert(book.mark());
        book.forget(mark);
    }
    Ok(count)
}

fn main(rt: HostRuntime) -> Result<()> {
    let count = play_files(&rt)?;
    println!(rt; "{count} cases as wanted")?;
    Ok(())
}
