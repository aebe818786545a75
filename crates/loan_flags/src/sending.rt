//! Which pages may be sent.

ghost use Rattle.loan_flags.specs.Sending.{any_missing, any_unsendable, is_mutable, is_unsendable, is_unsendable_side, send_answer};
ghost use Rattle.ledger_model.specs.Places.{place_after};
ghost use Rattle.std.specs.Prelude.{IsTrue, ℕ, ◌≡◌};
ghost use Rattle.sv32_space.specs.EntryLedger.{is_free_entry};
ghost use Rattle.sv32_space.specs.Spaces.{IsMade};
ghost use Rattle.sv32_space.specs.SpelledEntries.{entries};
ghost use Rattle.xk_base.specs.Tables.Circle.{is_pid};

use phys_pages::Ram;
use sv32_space::{Entry, Side, entry_at};
use xk_base::{MemKind, Place, Vpn, XousError, window_of};

// The entry of the place `i` pages above another; `None` outside the windows too.
#[tactic(auto, using(crate::proofs::SendingLemmas::no_entry_outside, crate::proofs::SendingLemmas::no_entry_past))]
fn entry_above(ram: &Ram, first: Place, i: u32) -> Option<Entry>
    requires { IsMade ram.now first.pid.0 }
    ensures { (procs : ℕ) → IsTrue (is_pid procs first.pid.0) → entries procs ram.now (place_after first i) ≡ result }
{
    match first.vpn.0.checked_add(i) {
        Some(vpn) => {
            if window_of(Vpn(vpn)).is_some() {
                entry_at(
                    ram,
                    Place {
                        pid: first.pid,
                        vpn: Vpn(vpn),
                    },
                )
            } else {
                None
            }
        }
        None => None,
    }
}

// Nothing stands at the place of that entry.
pub(crate) fn is_missing(entry: Option<Entry>) -> bool
    ensures { result ≡ is_free_entry entry }
{
    match entry {
        None => true,
        Some(Entry::Free) => true,
        Some(Entry::At { side: _, seat: _ }) => false,
        Some(Entry::OnConsole { w: _ }) => false,
    }
}

fn side_unsendable(mutably: bool, side: Side) -> bool
    ensures { result ≡ is_unsendable_side mutably side }
{
    match side {
        Side::Own(right) => mutably && !right.w,
        Side::LentOut(_) => true,
        Side::LentIn => true,
        Side::MutOut { x: _ } => true,
        Side::MutIn => true,
    }
}

fn unsendable(mutably: bool, entry: Option<Entry>) -> bool
    ensures { result ≡ is_unsendable mutably entry }
{
    match entry {
        None => false,
        Some(Entry::Free) => false,
        Some(Entry::At { side, seat: _ }) => side_unsendable(mutably, side),
        Some(Entry::OnConsole { w: _ }) => true,
    }
}

fn any_missing(ram: &Ram, from: Place, n: u32) -> bool
    requires { IsMade ram.now from.pid.0 }
    ensures { (procs : ℕ) → IsTrue (is_pid procs from.pid.0) → result ≡ any_missing (entries procs ram.now) from n }
{
    for i in 0..n {
        if is_missing(entry_above(ram, from, i)) {
            return true;
        }
    }
    false
}

fn any_unsendable(ram: &Ram, from: Place, n: u32, mutably: bool) -> bool
    requires { IsMade ram.now from.pid.0 }
    ensures { (procs : ℕ) → IsTrue (is_pid procs from.pid.0) → result ≡ any_unsendable mutably (entries procs ram.now) from n }
{
    for i in 0..n {
        if unsendable(mutably, entry_above(ram, from, i)) {
            return true;
        }
    }
    false
}

fn mutable(kind: MemKind) -> bool
    ensures { result ≡ is_mutable kind }
{
    match kind {
        MemKind::LendMut => true,
        MemKind::Lend => false,
        MemKind::Move => false,
    }
}

/// Whether the n pages from a place on may be sent in a message of that kind: `BadAddress` where a
/// place has no page, then `ShareViolation` where a page is on loan on either side, is the console,
/// or is to be lent mutably and has no w.
pub fn may_send(ram: &Ram, from: Place, n: u32, kind: MemKind) -> Result<(), XousError>
    requires { IsMade ram.now from.pid.0 }
    ensures { (procs : ℕ) → IsTrue (is_pid procs from.pid.0) → result ≡ send_answer (entries procs ram.now) from n kind }
{
    if any_missing(ram, from, n) {
        return Err(XousError::BadAddress);
    }
    if any_unsendable(ram, from, n, mutable(kind)) {
        return Err(XousError::ShareViolation);
    }
    Ok(())
}
