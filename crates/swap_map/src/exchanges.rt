//! A page goes out to a slot of the store, or comes into a frame of RAM.

ghost use Rattle.ledger_model.specs.Loans.{bare};
ghost use Rattle.loan_flags.specs.Keeping.{tables};
ghost use Rattle.phys_pages.specs.Owners.{HasSeat, IsUsed, extent, infos};
ghost use Rattle.phys_pages.specs.Ram.{pages};
ghost use Rattle.std.specs.Option.{option_map};
ghost use Rattle.std.specs.Prelude.{IsTrue, MatchResult, None, OnErr, OnOk, ℕ, ◌≡◌, ◌≢◌, ◌≤◌};
ghost use Rattle.swap_map.specs.Moving.{KeepsSizes, Moves, StaysPut};
ghost use Rattle.sv32_space.specs.Agreement.{procs_of};
ghost use Rattle.sv32_space.specs.Tie.{agrees, ledger_in, stands_without_room};
ghost use Rattle.xk_base.specs.Numbers.Limits.{table_frames};
ghost use Rattle.xk_base.specs.Outside.{Rose};
ghost use Rattle.xk_ports.specs.Keeping.{KeepsStore, tells_truly};
ghost use Rattle.xk_ports.specs.Store.{SpoilsSlot, with_page};

use crate::moves::move_page;
use phys_pages::{Owners, Ram, Seat};
use xk_base::{Failed, Frame, Slot};
use xk_ports::SwapStore;

/// Puts the page of a used frame out, to a free slot. On Failed all stays but that slot, of which
/// then nothing is known.
pub fn evict<W: SwapStore>(
    ram: &mut Ram,
    owners: &mut Owners,
    store: &mut W,
    f: Frame,
    to: Slot,
) -> Result<(), Failed>
    requires agrees { agrees ram.old owners.old }
    requires frame { HasSeat (extent owners.old) (Seat.Frame f) }
    requires slot { HasSeat (extent owners.old) (Seat.Slot to) }
    requires used { IsUsed owners.old (Seat.Frame f) }
    requires free { infos owners.old (Seat.Slot to) ≡ None }
    requires slots { (extent owners.old).slots ≤ W.slot_count store.old }
    ensures agrees { agrees ram.new owners.new }
    ensures ok { OnOk result (Moves (tables ram.old owners.old) (tables ram.new owners.new) (Seat.Frame f) (Seat.Slot to)) }
    ensures err { OnErr result (StaysPut (tables ram.old owners.old) (tables ram.new owners.new)) }
    ensures sizes { KeepsSizes (tables ram.old owners.old) (tables ram.new owners.new) }
    ensures pages { (g : ℕ) → table_frames (procs_of (extent owners.old)) ≤ g → pages ram.new g ≡ pages ram.old g }
    // whatever the store answers or does
    ensures rights { bare (ledger_in ram.new owners.new (W.held store.new)) ≡ bare (ledger_in ram.old owners.old (W.held store.old)) }
    // bytes too, where the store is honest and tells
    ensures whole { IsTrue (tells_truly W.SwapStore store.old)
        → ledger_in ram.new owners.new (W.held store.new) ≡ ledger_in ram.old owners.old (W.held store.old) }
    ensures stands { stands_without_room ram.new (procs_of (extent owners.new)) (W.held store.new)
        (ledger_in ram.new owners.new (W.held store.new)) }
    ensures put { IsTrue (W.is_honest store.old) → MatchResult result
        (λ _. W.held store.new ≡ option_map (λ slots. with_page slots to.0 (pages ram.old f.0)) (W.held store.old))
        (λ _. SpoilsSlot (W.held store.old) (W.held store.new) to.0) }
    ensures store { KeepsStore W.SwapStore store.old store.new }
    ensures cause { OnErr result (Rose (W.faults store.old) (W.faults store.new)) }
{
    // For the prover: what a frame holds is a page.
    ram.pages_are_bytes();
    store.put_page(to, ram.page(f))?;
    move_page(ram, owners, Seat::Frame(f), Seat::Slot(to));
    Ok(())
}

/// Brings the page of a used slot in, to a free frame. On Failed all stays but the bytes of that
/// frame.
pub fn bring<W: SwapStore>(
    ram: &mut Ram,
    owners: &mut Owners,
    store: &mut W,
    from: Slot,
    into: Frame,
) -> Result<(), Failed>
    requires agrees { agrees ram.old owners.old }
    requires slot { HasSeat (extent owners.old) (Seat.Slot from) }
    requires frame { HasSeat (extent owners.old) (Seat.Frame into) }
    requires used { IsUsed owners.old (Seat.Slot from) }
    requires free { infos owners.old (Seat.Frame into) ≡ None }
    requires slots { (extent owners.old).slots ≤ W.slot_count store.old }
    ensures agrees { agrees ram.new owners.new }
    ensures ok { OnOk result (Moves (tables ram.old owners.old) (tables ram.new owners.new) (Seat.Slot from) (Seat.Frame into)) }
    ensures err { OnErr result (StaysPut (tables ram.old owners.old) (tables ram.new owners.new)) }
    ensures sizes { KeepsSizes (tables ram.old owners.old) (tables ram.new owners.new) }
    ensures pages { (g : ℕ) → table_frames (procs_of (extent owners.old)) ≤ g → g ≢ into.0 → pages ram.new g ≡ pages ram.old g }
    // whatever the store answers or does
    ensures rights { bare (ledger_in ram.new owners.new (W.held store.new)) ≡ bare (ledger_in ram.old owners.old (W.held store.old)) }
    // bytes too, where the store is honest and tells
    ensures whole { IsTrue (tells_truly W.SwapStore store.old)
        → ledger_in ram.new owners.new (W.held store.new) ≡ ledger_in ram.old owners.old (W.held store.old) }
    ensures stands { stands_without_room ram.new (procs_of (extent owners.new)) (W.held store.new)
        (ledger_in ram.new owners.new (W.held store.new)) }
    ensures same { IsTrue (W.is_honest store.old) → W.held store.new ≡ W.held store.old }
    ensures store { KeepsStore W.SwapStore store.old store.new }
    ensures cause { OnErr result (Rose (W.faults store.old) (W.faults store.new)) }
{
    store.get_page(from, ram.page_mut(into))?;
    // For the prover: what a frame holds is a page.
    ram.pages_are_bytes();
    move_page(ram, owners, Seat::Slot(from), Seat::Frame(into));
    Ok(())
}
