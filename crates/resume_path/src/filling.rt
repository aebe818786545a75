//! Steps of a memory on its way: pages are made, filled, and reduced to their rights.

ghost use Rattle.std.specs.Prelude.{◌≡◌, ◌+◌, ◌<◌, ◌≤◌, ℕ, Ok, Some, true, false, length, OnOk, OnErr};
ghost use Rattle.ledger_model.specs.Ledger.{Homed, Ledger, pages};
ghost use Rattle.ledger_model.specs.Loans.{bare};
ghost use Rattle.ledger_model.specs.Places.{in_run};
ghost use Rattle.ledger_model.specs.Reach.{reach};
ghost use Rattle.ledger_model.specs.Steps.{make, reduce, write};
ghost use Rattle.vm_memory.specs.Bytes.{none_out};
ghost use Rattle.vm_memory.specs.Memory.{IsUsable, frames_for_pages, ledger, processes, room_in};
ghost use Rattle.vm_memory.specs.Pages.Making.{make_answer};
ghost use Rattle.vm_memory.specs.Pages.Removing.{reduce_answer};
ghost use Rattle.vm_memory.specs.Sound.{IsSound};
ghost use Rattle.vm_memory.specs.Using.Access.{reaches_bytes};
ghost use Rattle.xk_base.specs.Tables.Circle.{is_pid};
ghost use Rattle.xk_base.specs.declared.pages.Access.TheVariants.{Store};
ghost use Rattle.resume_path.specs.Coming.{HasCome, HasFailed, KeepsSize};

use vm_memory::Memory;
use xk_base::{Access, Failed, Place, Right, Window};
use xk_ports::SwapStore;

// Makes the n pages of a run in a window, where `make` would be served.
pub(crate) fn make_run<W: SwapStore>(
    mem: &mut Memory<W>,
    window: Window,
    first: Place,
    n: u32,
    right: Right,
) -> Result<(), Failed>
    requires sound { IsSound W.slot_count mem.old }
    requires usable { IsUsable mem.old }
    requires process { is_pid (processes mem.old) first.pid.0 ≡ true }
    requires some { 1 ≤ n }
    requires served { make_answer (room_in mem.old) (ledger W.held mem.old) first.pid window (Some first.vpn) n ≡ Ok first.vpn }
    ensures comes { (total : ℕ) (l : Ledger) → HasCome W.SwapStore total mem.old l
        → pages (processes mem.old) l + n ≤ total
        → OnOk result (HasCome W.SwapStore total mem.new (make first n right l)) }
    ensures rights { OnOk result (bare (ledger W.held mem.new) ≡ bare (make first n right (ledger W.held mem.old))) }
    ensures failed { OnErr result (HasFailed W.SwapStore mem.old mem.new) }
    ensures full { OnErr result (frames_for_pages mem.old < pages (processes mem.old) (ledger W.held mem.old) + n) }
    ensures keeps { KeepsSize W.SwapStore mem.old mem.new }
{
    match mem.make(first.pid, window, Some(first.vpn), n, right)? {
        Ok(_) => Ok(()),
        Err(_) => unreachable!(),
    }
}

// Fills the page with its home at a place, which can be written there, with these 4096 bytes.
pub(crate) fn fill<W: SwapStore>(mem: &mut Memory<W>, at: Place, bytes: &[u8]) -> Result<(), Failed>
    requires sound { IsSound W.slot_count mem.old }
    requires usable { IsUsable mem.old }
    requires may { reaches_bytes (processes mem.old) (ledger W.held mem.old) at Store ≡ true }
    requires home { reach (processes mem.old) (ledger W.held mem.old) at Store ≡ Some (Homed at) }
    requires whole { length bytes.now ≡ 4096 }
    ensures comes { (total : ℕ) (l : Ledger) → HasCome W.SwapStore total mem.old l
        → OnOk result (HasCome W.SwapStore total mem.new (write (Homed at) 0 bytes.now l)) }
    ensures rights { OnOk result (bare (ledger W.held mem.new) ≡ bare (ledger W.held mem.old)) }
    ensures failed { OnErr result (HasFailed W.SwapStore mem.old mem.new) }
    ensures out { OnErr result (none_out mem.old ≡ false) }
    ensures keeps { KeepsSize W.SwapStore mem.old mem.new }
{
    if !mem.reach(at, Access::Store)? {
        unreachable!();
    }
    mem.bytes_mut(at).copy_from_slice(bytes);
    Ok(())
}

// Gives the page with its home at a place a right that has nothing more than its own.
pub(crate) fn reduce<W: SwapStore>(mem: &mut Memory<W>, at: Place, right: Right)
    requires sound { IsSound W.slot_count mem.old }
    requires usable { IsUsable mem.old }
    requires process { is_pid (processes mem.old) at.pid.0 ≡ true }
    requires served { reduce_answer (processes mem.old) (ledger W.held mem.old) at 1 right ≡ Ok tt }
    ensures comes { (total : ℕ) (l : Ledger) → HasCome W.SwapStore total mem.old l
        → HasCome W.SwapStore total mem.new (reduce (in_run at 1) right l) }
    ensures keeps { KeepsSize W.SwapStore mem.old mem.new }
{
    match mem.reduce_run(at, 1, right) {
        Ok(()) => {}
        Err(_) => unreachable!(),
    }
}
