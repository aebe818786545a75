//! The pages of a state are there again: made, filled, and reduced to their rights.

ghost use Rattle.std.specs.Prelude.{◌≡◌, ◌+◌, ◌<◌, ◌≤◌, ℕ, List, true, false, length, OnOk, OnErr};
ghost use Rattle.ledger_model.specs.Ledger.{Ledger, pages};
ghost use Rattle.ledger_model.specs.Places.{is_place_in, is_user_place};
ghost use Rattle.ledger_model.specs.Reach.{is_free};
ghost use Rattle.ledger_model.specs.RunTests.{console_mapped};
ghost use Rattle.snapshot_rows.specs.Machines.{ledger_page, place_at};
ghost use Rattle.sv32_space.specs.PageSteps.{place_page, without_loan};
ghost use Rattle.vm_memory.specs.Memory.{IsUsable, capacity_of, frames_for_pages, ledger, processes};
ghost use Rattle.vm_memory.specs.Sound.{IsSound};
ghost use Rattle.xk_base.specs.declared.windows.Window.TheVariants.{Map};
ghost use Rattle.resume_path.specs.Coming.{HasCome, HasFailed, KeepsSize};
ghost use Rattle.resume_path.specs.Resumable.{IsResumable, state_pages};
ghost use Rattle.resume_path.specs.Standing.{pages_before, standing_of};

use crate::filling::{fill, make_run, reduce};
use suspend_image::{PageRow, State};
use vm_memory::Memory;
use xk_base::limits::PAGE_SIZE;
use xk_base::{Failed, Pid, Place, Right, Vpn, window_of};
use xk_ports::SwapStore;

/// The right of the console is at least this.
const CONSOLE: u32 = 4;

// The home of a page.
fn home(row: &PageRow) -> Place
    requires { row.now.pid < 256 }
    ensures { result ≡ place_at row.now.pid row.now.page }
{
    Place {
        pid: Pid(row.pid as u8),
        vpn: Vpn(row.page),
    }
}

// The right of a page.
fn right_of(row: &PageRow) -> Right
    requires { row.now.right < 8 }
    ensures { (file : List ℕ) → result ≡ (ledger_page file row.now).right }
{
    Right {
        w: row.right % 2 == 1,
        x: row.right / 2 % 2 == 1,
    }
}

// A page of the state is at its home again, which is free, with its right and its bytes, and without a loan. It
// can be written while it is filled.
fn put_page<W: SwapStore>(mem: &mut Memory<W>, row: &PageRow, file: &[u8]) -> Result<(), Failed>
    requires sound { IsSound W.slot_count mem.old }
    requires usable { IsUsable mem.old }
    requires pid { row.now.pid < 256 }
    requires place { is_user_place (processes mem.old) (place_at row.now.pid row.now.page) ≡ true }
    requires free { is_free (processes mem.old) (ledger W.held mem.old) (place_at row.now.pid row.now.page) ≡ true }
    requires room { pages (processes mem.old) (ledger W.held mem.old) + 1 ≤ capacity_of mem.old }
    requires right { row.now.right < 4 }
    requires bytes { row.now.from + 4096 ≤ length file.now }
    ensures comes { (total : ℕ) (l : Ledger) → HasCome W.SwapStore total mem.old l
        → pages (processes mem.old) l + 1 ≤ total
        → OnOk result (HasCome W.SwapStore total mem.new
        (place_page (place_at row.now.pid row.now.page) (without_loan (ledger_page file.now row.now)) l)) }
    ensures full { (total : ℕ) (l : Ledger) → HasCome W.SwapStore total mem.old l
        → pages (processes mem.old) l + 1 ≤ total
        → OnErr result (frames_for_pages mem.old < total) }
    ensures failed { OnErr result (HasFailed W.SwapStore mem.old mem.new) }
    ensures keeps { KeepsSize W.SwapStore mem.old mem.new }
{
    let at = home(row);
    let right = right_of(row);
    let window = match window_of(at.vpn) {
        Some(window) => window,
        None => unreachable!(),
    };
    make_run(
        mem,
        window,
        at,
        1,
        Right {
            w: true,
            x: right.x,
        },
    )?;
    let from = row.from as usize;
    fill(mem, at, &file[from..from + PAGE_SIZE as usize])?;
    reduce(mem, at, right);
    Ok(())
}

// The console is at its home again, which is free.
fn put_console<W: SwapStore>(mem: &mut Memory<W>, row: &PageRow)
    requires sound { IsSound W.slot_count mem.old }
    requires usable { IsUsable mem.old }
    requires pid { row.now.pid < 256 }
    requires place { is_place_in (processes mem.old) Map (place_at row.now.pid row.now.page) ≡ true }
    requires free { is_free (processes mem.old) (ledger W.held mem.old) (place_at row.now.pid row.now.page) ≡ true }
    requires first { console_mapped (processes mem.old) (ledger W.held mem.old) ≡ false }
    requires right { 4 ≤ row.now.right }
    requires no_fetch { row.now.right < 6 }
    ensures comes { (total : ℕ) (l : Ledger) (file : List ℕ) → HasCome W.SwapStore total mem.old l
        → HasCome W.SwapStore total mem.new
        (place_page (place_at row.now.pid row.now.page) (without_loan (ledger_page file row.now)) l) }
    ensures keeps { KeepsSize W.SwapStore mem.old mem.new }
{
    let at = home(row);
    match mem.make_console(at.pid, Some(at.vpn), row.right % 2 == 1) {
        Ok(_) => {}
        Err(_) => unreachable!(),
    }
}

// What a row says stands at its free home again: the console, or a page with its bytes.
fn put_row<W: SwapStore>(mem: &mut Memory<W>, row: &PageRow, file: &[u8]) -> Result<(), Failed>
    requires sound { IsSound W.slot_count mem.old }
    requires usable { IsUsable mem.old }
    requires pid { row.now.pid < 256 }
    requires place { is_user_place (processes mem.old) (place_at row.now.pid row.now.page) ≡ true }
    requires free { is_free (processes mem.old) (ledger W.held mem.old) (place_at row.now.pid row.now.page) ≡ true }
    requires room { row.now.right < 4 → pages (processes mem.old) (ledger W.held mem.old) + 1 ≤ capacity_of mem.old }
    requires bytes { row.now.right < 4 → row.now.from + 4096 ≤ length file.now }
    requires window { 4 ≤ row.now.right → is_place_in (processes mem.old) Map (place_at row.now.pid row.now.page) ≡ true }
    requires first { 4 ≤ row.now.right → console_mapped (processes mem.old) (ledger W.held mem.old) ≡ false }
    requires no_fetch { 4 ≤ row.now.right → row.now.right < 6 }
    ensures comes { (total : ℕ) (l : Ledger) → HasCome W.SwapStore total mem.old l
        → (row.now.right < 4 → pages (processes mem.old) l + 1 ≤ total)
        → OnOk result (HasCome W.SwapStore total mem.new
        (place_page (place_at row.now.pid row.now.page) (without_loan (ledger_page file.now row.now)) l)) }
    ensures full { (total : ℕ) (l : Ledger) → HasCome W.SwapStore total mem.old l
        → (row.now.right < 4 → pages (processes mem.old) l + 1 ≤ total)
        → OnErr result (frames_for_pages mem.old < total) }
    ensures failed { OnErr result (HasFailed W.SwapStore mem.old mem.new) }
    ensures keeps { KeepsSize W.SwapStore mem.old mem.new }
{
    if row.right >= CONSOLE {
        put_console(mem, row);
        return Ok(());
    }
    put_page(mem, row, file)
}

// The pages of a state are at their homes again, without a loan. Only the orphans stood before.
pub(crate) fn resume_pages<W: SwapStore>(
    mem: &mut Memory<W>,
    state: &State,
    file: &[u8],
) -> Result<(), Failed>
    requires resumable { IsResumable file.now state.now }
    requires processes { processes mem.old ≡ state.now.n }
    requires capacity { capacity_of mem.old ≡ state.now.cap }
    requires come { HasCome W.SwapStore (state_pages file.now state.now) mem.old
        (standing_of file.now state.now (pages_before state.now.pages 0)) }
    ensures come { OnOk result (HasCome W.SwapStore (state_pages file.now state.now) mem.new
        (standing_of file.now state.now (pages_before state.now.pages (length state.now.pages)))) }
    ensures failed { OnErr result (HasFailed W.SwapStore mem.old mem.new) }
    ensures full { OnErr result (frames_for_pages mem.old < state_pages file.now state.now) }
    ensures keeps { KeepsSize W.SwapStore mem.old mem.new }
{
    'rows: for row in state.pages.as_slice() {
        put_row(mem, row, file)?;
    }
    Ok(())
}
