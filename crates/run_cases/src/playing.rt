//! A call of the program over files and streams in memory. It is `run_program`, since no crate can stand on `xousim`, whose
//! `xous_main` is that call with the headline in its contract.

use crate::case::{Case, Outside};
use crate::judging::Left;
use crate::wrong::Wrong;
use std::alloc::Global;
use xk_ports::{MemHost, MemSink, MemStore};
use xous_program::{Ended, Status, run_program, write_note};

/// Room for the output of each run, in bytes. A state takes most.
const OUT_ROOM: usize = 500_000;

/// Room for the notes.
const NOTES_ROOM: usize = 200;

/// A stream of which a call fails.
fn sink_of(alloc: Global, room: usize, fails: u64) -> Result<MemSink, Wrong> {
    let fails = vec![in alloc; fails; 1]?;
    Ok(MemSink::new(alloc, room, fails)?)
}

/// A host of the files of a case.
fn host_of(alloc: Global, case: &Case, outside: Outside) -> Result<MemHost, Wrong> {
    let mut files = Vec::new(alloc);
    for file in &case.files {
        let name = String::from_str(alloc, file.0.as_str())?;
        let bytes = file.1.as_slice().to_vec(alloc)?;
        files.push((name, bytes))?;
    }
    let fails = vec![in alloc; outside.host; 1]?;
    Ok(MemHost::new(alloc, files, outside.piece.max(1), fails, 100)?)
}

/// What is left of a run, with the note of its status.
fn left_of(alloc: Global, status: Status, out: &MemSink, notes: &MemSink) -> Result<Left, Wrong> {
    let mut note = sink_of(alloc, NOTES_ROOM, 0)?;
    write_note(status, &mut note);
    Ok(Left {
        number: u32::from(status.number()),
        note: note.as_slice().to_vec(alloc)?,
        out: out.as_slice().to_vec(alloc)?,
        notes: notes.as_slice().to_vec(alloc)?,
    })
}

/// Calls the program as a case says, where this fails outside.
pub fn play_once(alloc: Global, case: &Case, outside: Outside) -> Result<Left, Wrong> {
    let mut host = host_of(alloc, case, outside)?;
    let mut out = sink_of(alloc, OUT_ROOM, outside.out)?;
    let mut notes = sink_of(alloc, NOTES_ROOM, outside.notes)?;
    let store = MemStore::new(vec![in alloc; outside.store; 1]?);
    let Ended { status, store: _ } = run_program(
        alloc,
        case.words.as_slice(),
        &mut host,
        &mut out,
        &mut notes,
        store,
    );
    left_of(alloc, status, &out, &notes)
}
