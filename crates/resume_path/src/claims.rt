//! The claims, the timer, the reservation and the turn of a state are there again.

ghost use Rattle.irq_claims.specs.ClaimsOf.{claims_of};
ghost use Rattle.xk_parts.specs.Shown.{claims_shown, pending_shown};
ghost use Rattle.std.specs.Option.{option_map};
ghost use Rattle.std.specs.Prelude.{◌≡◌, ◌<◌, ◌==◌, ℕ, None, Some, nat_eq};
ghost use Rattle.snapshot_rows.specs.Machines.{claims_of as state_claims, compare_of, pending_of, reservation_of, thread_at_id};
ghost use Rattle.snapshot_rows.specs.declared.state.ClaimRow.{ClaimRow as Row};
ghost use Rattle.xk_base.specs.Tables.Counting.{put_at};
ghost use Rattle.resume_path.specs.Resumable.{CanResume};
ghost use Rattle.resume_path.specs.Tables.{row_claim};
ghost use Rattle.xk_parts.specs.Parts.{as_reservation};

use irq_claims::Claims;
use suspend_image::{ClaimRow, State};
use timer_device::Timer;
use xk_base::{Pid, ThreadId, Tid, Width};

/// The offset in the timer's page of its compare value.
const COMPARE: u32 = 4;

// The interrupt of a row, which isn't claimed, is claimed again.
fn claim_again(claims: &mut Claims, row: &ClaimRow)
    requires number { row.now.number < 32 }
    requires pid { row.now.pid < 256 }
    requires free { claims_of claims.old row.now.number ≡ None }
    ensures { claims_of claims.new ≡ put_at nat_eq (claims_of claims.old) row.now.number (Some (row_claim row.now)) }
{
    let number = row.number as u8;
    match claims.claim(number, Pid(row.pid as u8), row.handler, row.arg) {
        Ok(()) => {}
        Err(_) => unreachable!(),
    }
    if row.pending == 1 {
        claims.pend(number);
    }
}

// The claims of a state, with what is pending.
pub(crate) fn resume_claims(state: &State) -> Claims
    requires resumable { CanResume state.now }
    ensures claims { (k : ℕ) → claims_shown result k ≡ state_claims state.now.claims k }
    ensures pending { (k : ℕ) → pending_shown result k ≡ pending_of state.now.claims k }
{
    let mut claims = Claims::new();
    'rows: for row in state.claims.as_slice() {
        claim_again(&mut claims, row);
    }
    claims
}

// The timer of a state.
pub(crate) fn resume_timer(state: &State) -> Timer
    ensures { result ≡ compare_of state.now }
{
    let mut timer = Timer::new();
    if state.armed == 1 {
        timer.store(COMPARE, Width::Word, state.compare);
    }
    timer
}

// The reservation of a state.
pub(crate) fn resume_reservation(state: &State) -> Option<(ThreadId, u32)>
    requires resumable { CanResume state.now }
    ensures { option_map as_reservation result ≡ reservation_of state.now }
{
    if state.reserved == 0 {
        return None;
    }
    let who = ThreadId {
        pid: Pid(state.reserved_pid as u8),
        tid: Tid(state.reserved_tid as u8),
    };
    Some((who, state.reserved_address))
}

// The thread whose turn it is.
pub(crate) fn resume_cursor(state: &State) -> ThreadId
    requires resumable { CanResume state.now }
    ensures { result ≡ thread_at_id state.now.cursor_pid state.now.cursor_tid }
{
    ThreadId {
        pid: Pid(state.cursor_pid as u8),
        tid: Tid(state.cursor_tid as u8),
    }
}
