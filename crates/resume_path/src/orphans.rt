//! The orphans of a state are there again. Those of a message are made in the Map window of their holder's
//! process, which has no page yet, lent to their places, and lose their lender.

ghost use Rattle.std.specs.List.{find};
ghost use Rattle.std.specs.Option.{option_map};
ghost use Rattle.std.specs.Prelude.{◌≡◌, ◌+◌, ◌<◌, ◌==◌, ◌&&◌, ◌^◌, ℕ, IfOk, IfSome, IsSome, OnErr, OnOk, Some, length, replicate, true};
ghost use Rattle.ledger_model.specs.Ledger.{Ledger, empty_ledger};
ghost use Rattle.ledger_model.specs.Places.{in_run, place_after};
ghost use Rattle.ledger_model.specs.Steps.{make};
ghost use Rattle.snapshot_rows.specs.Order.{orphan_key, AscendInTwo};
ghost use Rattle.snapshot_rows.specs.declared.state.OrphanRow.{OrphanRow as Orphan};
ghost use Rattle.msg_queue.specs.Seats.{empty_seat};
ghost use Rattle.vm_memory.specs.Memory.{IsUsable, capacity_of, frames_for_pages, ledger, processes};
ghost use Rattle.vm_memory.specs.Sound.{IsSound};
ghost use Rattle.xk_base.specs.declared.ids.Place.{Place as PlaceOf};
ghost use Rattle.resume_path.specs.Coming.{HasCome, HasFailed, KeepsSize};
ghost use Rattle.xk_base.specs.declared.limits.TheConstants.{SERVER_LIMIT};
ghost use Rattle.resume_path.specs.Messages.{AreBack, IsStopped, is_orphan_back, is_orphaned, row_at, run_at};
ghost use Rattle.resume_path.specs.Resumable.{IsResumable, state_ledger, state_pages};
ghost use Rattle.resume_path.specs.Standing.{IsHomeOf, filling_right, orphans_before, pages_before, standing_of, with_orphan_pages};

use crate::filling::{fill, make_run};
use crate::messages::{is_orphaned, loan_kind, message, message_at, message_count};
use loan_flags::Loan;
use msg_queue::{Held, Queues};
use suspend_image::{OrphanRow, State};
use vm_memory::Memory;
use xk_base::limits::PAGE_SIZE;
use xk_base::{Failed, Number, Pid, Place, Right, Vpn, Window};
use xk_ports::SwapStore;

/// The right of a page while it is filled.
const FILLING: Right = Right { w: true, x: false };

// Where the bytes of the orphan at a place begin in the file. Orphans stand in order of their places, so it is found by halving.
fn offset(orphans: &[OrphanRow], at: Place) -> u32
    requires order { AscendInTwo orphan_key orphans.now }
    requires there { IsSome (find (λ (o : Orphan). o.pid == at.pid.0 && o.page == at.vpn.0) orphans.now) }
    ensures { option_map (λ (o : Orphan). o.from) (find (λ (o : Orphan). o.pid == at.pid.0 && o.page == at.vpn.0) orphans.now)
        ≡ Some result }
{
    let key = (u32::from(at.pid.0), at.vpn.0);
    match orphans.binary_search_by_key(&key, |orphan| (orphan.pid, orphan.page)) {
        Ok(i) => orphans[i].from,
        Err(_) => unreachable!(),
    }
}

// Fills the n pages of a run, which can be written, with the bytes of the orphans of the run at `to`.
fn fill_orphans<W: SwapStore>(
    mem: &mut Memory<W>,
    state: &State,
    file: &[u8],
    from: Place,
    to: Place,
    n: u32,
) -> Result<(), Failed>
    requires sound { IsSound W.slot_count mem.old }
    requires usable { IsUsable mem.old }
    requires resumable { IsResumable file.now state.now }
    requires low { from.vpn.0 + n < 2 ^ 32 }
    requires there { (i : ℕ) → i < n → IsSome ((state_ledger file.now state.now).orphan (place_after to i)) }
    requires homes { (p : PlaceOf) → in_run from n p ≡ true → IsHomeOf (ledger W.held mem.old) p filling_right }
    ensures comes { (total : ℕ) (l : Ledger) → HasCome W.SwapStore total mem.old (make from n filling_right l)
        → OnOk result (HasCome W.SwapStore total mem.new (with_orphan_pages (state_ledger file.now state.now) from n to l)) }
    ensures failed { OnErr result (HasFailed W.SwapStore mem.old mem.new) }
    ensures full { (total : ℕ) (l : Ledger) → HasCome W.SwapStore total mem.old (make from n filling_right l)
        → OnErr result (frames_for_pages mem.old < total) }
    ensures keeps { KeepsSize W.SwapStore mem.old mem.new }
{
    'orphans: for i in 0..n {
        let at = Place {
            pid: from.pid,
            vpn: Vpn(from.vpn.0 + i),
        };
        let there = Place {
            pid: to.pid,
            vpn: Vpn(to.vpn.0 + i),
        };
        let begin = offset(state.orphans.as_slice(), there) as usize;
        fill(mem, at, &file[begin..begin + PAGE_SIZE as usize])?;
    }
    Ok(())
}

// The orphans of the k-th message of the i-th server, whose lender died, are there again, and on loan to its server.
fn lend_orphans<W: SwapStore>(
    mem: &mut Memory<W>,
    state: &State,
    file: &[u8],
    i: usize,
    k: usize,
) -> Result<Loan, Failed>
    requires resumable { IsResumable file.now state.now }
    requires processes { processes mem.old ≡ state.now.n }
    requires capacity { capacity_of mem.old ≡ state.now.cap }
    requires there { IsSome (row_at state.now i k) }
    requires orphaned { IfSome (row_at state.now i k) (λ row. is_orphaned row ≡ true) }
    requires come { HasCome W.SwapStore (state_pages file.now state.now) mem.old
        (standing_of file.now state.now (orphans_before state.now.servers i k)) }
    ensures come { OnOk result (HasCome W.SwapStore (state_pages file.now state.now) mem.new
        (standing_of file.now state.now (orphans_before state.now.servers i (k + 1)))) }
    ensures loan { IfOk result (λ loan. run_at state.now i k ≡ Some loan) }
    ensures failed { OnErr result (HasFailed W.SwapStore mem.old mem.new) }
    ensures full { OnErr result (frames_for_pages mem.old < state_pages file.now state.now) }
    ensures keeps { KeepsSize W.SwapStore mem.old mem.new }
{
    let server = &state.servers.as_slice()[i];
    let row = message_at(server, k);
    let pid = Pid(server.pid as u8);
    let from = Place {
        pid,
        vpn: Window::Map.first(),
    };
    let to = Place {
        pid,
        vpn: Vpn(row.first),
    };
    make_run(mem, Window::Map, from, row.count, FILLING)?;
    fill_orphans(mem, state, file, from, to, row.count)?;
    let loan = mem.lend(from, row.count, to, loan_kind(row), Number(row.number));
    Ok(mem.orphan(loan))
}

// The messages of the i-th server whose lender died are held again, and their orphans are there.
fn resume_server_orphans<W: SwapStore>(
    mem: &mut Memory<W>,
    queues: &mut Queues,
    state: &State,
    file: &[u8],
    i: usize,
) -> Result<(), Failed>
    requires resumable { IsResumable file.now state.now }
    requires processes { processes mem.old ≡ state.now.n }
    requires capacity { capacity_of mem.old ≡ state.now.cap }
    requires server { i < length state.now.servers }
    requires come { HasCome W.SwapStore (state_pages file.now state.now) mem.old
        (standing_of file.now state.now (orphans_before state.now.servers i 0)) }
    requires back { AreBack state.now (is_orphan_back state.now.servers i 0) queues.old }
    ensures come { OnOk result (HasCome W.SwapStore (state_pages file.now state.now) mem.new
        (standing_of file.now state.now (orphans_before state.now.servers (i + 1) 0))) }
    ensures back { OnOk result (AreBack state.now (is_orphan_back state.now.servers (i + 1) 0) queues.new) }
    ensures failed { OnErr result (IsStopped W.SwapStore file.now state.now mem.old mem.new queues.new) }
    ensures full { OnErr result (frames_for_pages mem.old < state_pages file.now state.now) }
    ensures keeps { KeepsSize W.SwapStore mem.old mem.new }
{
    let server = &state.servers.as_slice()[i];
    'messages: for k in 0..message_count(server) {
        let row = message_at(server, k);
        if is_orphaned(row) {
            let loan = lend_orphans(mem, state, file, i, k)?;
            let held = Held {
                msg: message(row),
                loan: Some(loan),
            };
            queues.hold(i as u8, held);
        }
    }
    Ok(())
}

// The messages of all servers whose lender died are held again, and their orphans are there. Nothing else is there
// before.
pub(crate) fn resume_orphans<W: SwapStore>(
    mem: &mut Memory<W>,
    queues: &mut Queues,
    state: &State,
    file: &[u8],
) -> Result<(), Failed>
    requires resumable { IsResumable file.now state.now }
    requires processes { processes mem.old ≡ state.now.n }
    requires capacity { capacity_of mem.old ≡ state.now.cap }
    requires come { HasCome W.SwapStore (state_pages file.now state.now) mem.old empty_ledger }
    requires empty { queues.old ≡ replicate SERVER_LIMIT empty_seat }
    ensures come { OnOk result (HasCome W.SwapStore (state_pages file.now state.now) mem.new
        (standing_of file.now state.now (pages_before state.now.pages 0))) }
    ensures back { OnOk result (AreBack state.now is_orphaned queues.new) }
    ensures failed { OnErr result (IsStopped W.SwapStore file.now state.now mem.old mem.new queues.new) }
    ensures full { OnErr result (frames_for_pages mem.old < state_pages file.now state.now) }
    ensures keeps { KeepsSize W.SwapStore mem.old mem.new }
{
    'servers: for i in 0..state.servers.as_slice().len() {
        resume_server_orphans(mem, queues, state, file, i)?;
    }
    Ok(())
}
