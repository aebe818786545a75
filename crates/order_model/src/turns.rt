//! What the rows of a state tell of the orders behind it: whose slices may come next, and whether the timer's interrupt is claimed.

ghost use Rattle.std.specs.List.{find, list_any};
ghost use Rattle.std.specs.Prelude.{◌≡◌, ◌<◌, ◌≤◌, ◌==◌, ◌&&◌, ◌++◌, ◌∷◌, [], ℕ, IfOk, List, OnOk, if◌then◌else◌, is_some};
ghost use Rattle.order_model.specs.Endings.{ready_ids as ready_ids_of};
ghost use Rattle.snapshot_rows.specs.Machines.{machine_of};
ghost use Rattle.order_model.specs.Turns.{is_ready_in};
ghost use Rattle.xk_base.specs.Tables.Circle.{id_at, thread_ids};
ghost use Rattle.xk_base.specs.declared.limits.TheConstants.{PROCESS_LIMIT, TIMER_INTERRUPT};

use snapshot_rows::{ClaimRow, READY, State, ThreadRow};
use std::alloc::{AllocError, Global};
use thread_table::id_at;
use xk_base::ThreadId;
use xk_base::limits::{TID_LIMIT, TIMER_INTERRUPT};

/// Whether the row is that of the thread of this id.
fn is_row_of(row: &ThreadRow, who: ThreadId) -> bool
    ensures { result ≡ (row.now.pid == who.pid.0 && row.now.tid == who.tid.0) }
{
    row.pid == u32::from(who.pid.0) && row.tid == u32::from(who.tid.0)
}

/// The row of the thread of this id.
pub(crate) fn row_of(threads: &[ThreadRow], who: ThreadId) -> Option<ThreadRow>
    ensures { result ≡ find (λ t. t.pid == who.pid.0 && t.tid == who.tid.0) threads.now }
{
    threads.iter().copied().find(|row| is_row_of(row, who))
}

/// Whether there is a thread of this id, and it is Ready.
fn is_ready(threads: &[ThreadRow], who: ThreadId) -> bool
    ensures { result ≡ is_ready_in threads.now who }
{
    match row_of(threads, who) {
        Some(row) => row.state == READY,
        None => false,
    }
}

/// The id at this place of the order of ids is added where its thread is Ready.
fn add_if_ready(state: &State, place: usize, ids: &mut Vec<ThreadId>) -> Result<(), AllocError>
    requires { place < thread_ids PROCESS_LIMIT }
    ensures { OnOk result (ids.new.items ≡ ids.old.items ++ (if is_ready_in state.now.threads (id_at place) then id_at place ∷ [] else [])) }
{
    let who = id_at(place);
    if !is_ready(state.threads.as_slice(), who) {
        return Ok(());
    }
    ids.push(who)?;
    Ok(())
}

/// The threads that are Ready, by pid and tid.
pub fn ready_ids(alloc: Global, state: &State) -> Result<Vec<ThreadId>, AllocError>
    requires { state.now.n ≤ PROCESS_LIMIT }
    ensures { IfOk result (λ ids. (file : List ℕ) → ids.items ≡ ready_ids_of (machine_of file state.now)) }
{
    let mut ids = Vec::new(alloc);
    for place in 0..state.n as usize * TID_LIMIT as usize {
        add_if_ready(state, place, &mut ids)?;
    }
    Ok(ids)
}

/// Whether a process has claimed the timer's interrupt.
pub fn has_timer(state: &State) -> bool
    ensures { (file : List ℕ) → result ≡ is_some ((machine_of file state.now).claims TIMER_INTERRUPT) }
{
    is_claimed(state.claims.as_slice(), u32::from(TIMER_INTERRUPT))
}

/// Whether there is a claim of this number.
pub(crate) fn is_claimed(claims: &[ClaimRow], number: u32) -> bool
    ensures { result ≡ list_any (λ c. c.number == number) claims.now }
{
    claims.iter().any(|claim| claim.number == number)
}
