//! Whether the machine can have the claimed interrupts and the timer of a state, told from the rows.

ghost use Rattle.std.specs.Prelude.{◌≡◌, ◌↔◌, ◌==◌, ◌%◌, IsTrue};
ghost use Rattle.std.specs.List.{list_any, list_all};
ghost use Rattle.machine_model.specs.Runs.Matched.{AreHandlersMatched, IsTimerMatched};
ghost use Rattle.snapshot_rows.specs.Order.{claim_key, Ascend};
ghost use Rattle.snapshot_rows.specs.Machines.{claims_of, compare_of};
ghost use Rattle.snapshot_matching.specs.ProcessParts.{is_claim_living as is_claim_living_of};

use snapshot_rows::{ClaimRow, ProcRow, State, is_alive};
use xk_base::limits::{INTERRUPT_LIMIT, TIMER_INTERRUPT};

/// Whether an interrupt is claimed.
fn is_claimed(claims: &[ClaimRow], number: u32) -> bool
    ensures { result ≡ list_any (λ c. c.number == number) claims.now }
{
    claims.iter().any(|claim| claim.number == number)
}

/// Whether each handler is the address of an instruction.
fn are_handlers_whole(claims: &[ClaimRow]) -> bool
    ensures { result ≡ list_all (λ c. c.handler % 4 == 0) claims.now }
{
    claims.iter().all(|claim| claim.handler % 4 == 0)
}

fn is_claim_living(procs: &[ProcRow], claim: &ClaimRow) -> bool
    ensures { result ≡ is_claim_living_of procs.now claim.now }
{
    claim.number < INTERRUPT_LIMIT as u32 && is_alive(procs, claim.pid)
}

/// Whether each claim is of an interrupt below the limit, by a living process.
pub fn all_claims_living(procs: &[ProcRow], claims: &[ClaimRow]) -> bool
    ensures { result ≡ list_all (is_claim_living_of procs.now) claims.now }
{
    claims.iter().all(|claim| is_claim_living(procs, claim))
}

/// Part 6, of the claims: each claimed handler is the address of an instruction.
pub fn are_handlers_matched(claims: &[ClaimRow]) -> bool
    requires { Ascend claim_key claims.now }
    ensures { IsTrue result ↔ AreHandlersMatched (claims_of claims.now) }
{
    are_handlers_whole(claims)
}

/// Part 9: the timer is armed only while its interrupt is claimed.
pub fn is_timer_matched(state: &State) -> bool
    ensures { IsTrue result ↔ IsTimerMatched (compare_of state.now) (claims_of state.now.claims) }
{
    state.armed != 1 || is_claimed(state.claims.as_slice(), TIMER_INTERRUPT as u32)
}
