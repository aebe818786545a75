//! Both texts of a case that isn't as wanted.

use crate::case::Case;
use crate::judging::Left;
use std::alloc::Global;
use std::io;
use std::io::Write;

/// Prints bytes behind a title.
fn tell<R: Print>(rt: &R, title: &str, bytes: &[u8]) -> io::Result<()> {
    println!(rt; "{title}")?;
    io::writer(rt).write_all(bytes)
}

/// Prints what a case wants and what its call left.
pub fn tell_difference<R: Print>(
    rt: &R,
    case: &Case,
    left: &Left,
    row: Option<&str>,
) -> io::Result<()> {
    if let Some(row) = row {
        println!(rt; "row: {row}")?;
    }
    tell(rt, "status that is wanted:", case.wanted.note.as_slice())?;
    tell(rt, "status:", left.note.as_slice())?;
    tell(rt, "output that is wanted:", case.wanted.whole())?;
    tell(rt, "output:", left.out.as_slice())?;
    tell(rt, "notes:", left.notes.as_slice())
}
