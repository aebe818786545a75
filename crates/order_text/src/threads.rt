//! The threads of a process.

ghost use Rattle.std.specs.List.{find, join_by};
ghost use Rattle.std.specs.Option.{option_map_or};
ghost use Rattle.std.specs.Prelude.{◌≡◌, ◌<◌, ◌≤◌, ◌==◌, ◌&&◌, ◌++◌, ◌∷◌, [], ℕ, IfOk, List, OnOk, codes, false, if◌then◌else◌};
ghost use Rattle.order_model.specs.Endings.{is_busy, is_busy_of, thread_seen};
ghost use Rattle.order_text.specs.Rows.{AreTellable};
ghost use Rattle.order_text.specs.Texts.{thread_seen_text};
ghost use Rattle.snapshot_rows.specs.Machines.{machine_of, threads_of};
ghost use Rattle.xk_base.specs.Tables.Circle.{id_at, listed_ids, thread_ids};
ghost use Rattle.xk_base.specs.declared.limits.TheConstants.{PROCESS_LIMIT};

use crate::text::put;
use crate::waits::{put_about, put_thread};
use snapshot_rows::{IDLE, State, ThreadRow};
use std::alloc::{AllocError, Global};
use thread_table::id_at;
use xk_base::limits::TID_LIMIT;
use xk_base::{Pid, ThreadId};

/// Whether the row is that of the thread of this id.
fn is_row_of(row: &ThreadRow, who: ThreadId) -> bool
    ensures { result ≡ (row.now.pid == who.pid.0 && row.now.tid == who.tid.0) }
{
    row.pid == u32::from(who.pid.0) && row.tid == u32::from(who.tid.0)
}

/// The row of the thread of this id.
fn row_of(threads: &[ThreadRow], who: ThreadId) -> Option<ThreadRow>
    ensures { result ≡ find (λ t. t.pid == who.pid.0 && t.tid == who.tid.0) threads.now }
{
    threads.iter().copied().find(|row| is_row_of(row, who))
}

/// Whether there is a thread of this id, and it isn't idle.
fn is_busy(threads: &[ThreadRow], who: ThreadId) -> bool
    ensures { result ≡ option_map_or (λ thread. is_busy thread.state) (threads_of threads.now who) false }
{
    match row_of(threads, who) {
        Some(row) => row.state < IDLE,
        None => false,
    }
}

/// Whether it is a thread of the process, and isn't idle.
fn is_busy_of(state: &State, pid: Pid, who: ThreadId) -> bool
    ensures { (file : List ℕ) → result ≡ is_busy_of (machine_of file state.now) pid who }
{
    who.pid.0 == pid.0 && is_busy(state.threads.as_slice(), who)
}

/// The id at this place of the order of ids is added where its thread is of the process, and isn't idle.
fn add_if_busy(
    state: &State,
    pid: Pid,
    place: usize,
    ids: &mut Vec<ThreadId>,
) -> Result<(), AllocError>
    requires { place < thread_ids PROCESS_LIMIT }
    ensures { (file : List ℕ) → OnOk result (ids.new.items
        ≡ ids.old.items ++ (if is_busy_of (machine_of file state.now) pid (id_at place) then id_at place ∷ [] else [])) }
{
    let who = id_at(place);
    if !is_busy_of(state, pid, who) {
        return Ok(());
    }
    ids.push(who)?;
    Ok(())
}

/// The threads of the process but for an idle one, by their tids.
pub fn busy_ids(alloc: Global, state: &State, pid: Pid) -> Result<Vec<ThreadId>, AllocError>
    requires { state.now.n ≤ PROCESS_LIMIT }
    ensures { IfOk result (λ ids. (file : List ℕ)
        → ids.items ≡ listed_ids (machine_of file state.now).processes (is_busy_of (machine_of file state.now) pid)) }
{
    let mut ids = Vec::new(alloc);
    for place in 0..state.n as usize * TID_LIMIT as usize {
        add_if_busy(state, pid, place, &mut ids)?;
    }
    Ok(ids)
}

/// Appends what is seen of a thread.
fn put_seen_thread(
    text: &mut Vec<u8>,
    named: bool,
    state: &State,
    who: ThreadId,
) -> Result<(), AllocError>
    requires { AreTellable state.now }
    ensures { (file : List ℕ) → OnOk result (text.new.items
        ≡ text.old.items ++ thread_seen_text named (thread_seen (machine_of file state.now) who)) }
{
    put_thread(text, u32::from(who.pid.0), u32::from(who.tid.0))?;
    match row_of(state.threads.as_slice(), who) {
        Some(row) => put_about(text, named, state, u32::from(who.pid.0), &row),
        None => put(text, b" idle"),
    }
}

/// Appends what is seen of these threads, with commas between them. Servers are told by their names, where `named` asks for that.
pub fn put_threads(
    text: &mut Vec<u8>,
    named: bool,
    state: &State,
    ids: &[ThreadId],
) -> Result<(), AllocError>
    requires { AreTellable state.now }
    ensures { (file : List ℕ) → OnOk result (text.new.items
        ≡ text.old.items ++ join_by (λ who. thread_seen_text named (thread_seen (machine_of file state.now) who)) (codes ", ") ids.now) }
{
    let Some((first, others)) = ids.split_first() else {
        return Ok(());
    };
    put_seen_thread(text, named, state, *first)?;
    for who in others {
        put(text, b", ")?;
        put_seen_thread(text, named, state, *who)?;
    }
    Ok(())
}
