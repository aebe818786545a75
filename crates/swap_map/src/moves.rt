//! The seat of a page, in the entries of its places and in the owner table.

ghost use Rattle.loan_flags.specs.Keeping.{tables};
ghost use Rattle.phys_pages.specs.Owners.{HasSeat, IsUsed, extent, infos};
ghost use Rattle.phys_pages.specs.Ram.{area, pages};
ghost use Rattle.std.specs.Option.{option_map};
ghost use Rattle.std.specs.Prelude.{IfSome, IsSome, None, ℕ, ◌≡◌, ◌≤◌};
ghost use Rattle.swap_map.specs.Moving.{KeepsSizes, Moves, Reseats, holder_place};
ghost use Rattle.sv32_space.specs.Agreement.{procs_of};
ghost use Rattle.sv32_space.specs.declared.sides.Entry.TheVariants.{At};
ghost use Rattle.sv32_space.specs.declared.sides.Side.{Side};
ghost use Rattle.sv32_space.specs.Spaces.{IsMade};
ghost use Rattle.sv32_space.specs.SpelledEntries.{IsEntry};
ghost use Rattle.sv32_space.specs.Tie.{agrees};
ghost use Rattle.xk_base.specs.Numbers.Limits.{table_frames};
ghost use Rattle.xk_base.specs.Numbers.Windows.{window_at};

use phys_pages::{Owners, PageInfo, Ram, Seat};
use sv32_space::{Entry, entry_at, set_entry};
use xk_base::Place;

// Where the page's holder has it, if it is on loan.
fn holder(info: PageInfo) -> Option<Place>
    ensures { result ≡ option_map holder_place info.loan }
{
    match info.loan {
        Some(loan) => Some(loan.holder),
        None => None,
    }
}

// The entry of a place, if there is one, names another seat, with the side that it had.
fn reseat(ram: &mut Ram, at: Option<Place>, to: Seat)
    requires made { IfSome at (λ p. IsMade ram.old p.pid.0) }
    requires window { IfSome at (λ p. IsSome (window_at p.vpn.0)) }
    requires seat { (side : Side) → IsEntry (area ram.old) (At side to) }
    ensures { Reseats ram.old ram.new at to }
{
    if let Some(at) = at {
        if let Some(Entry::At { side, seat: _ }) = entry_at(ram, at) {
            set_entry(ram, at, Entry::At { side, seat: to });
        }
    }
}

// A page moves to a free seat, in the entries that name it and in the owner table. Its bytes are the
// caller's to move.
pub(crate) fn move_page(ram: &mut Ram, owners: &mut Owners, from: Seat, to: Seat)
    requires agrees { agrees ram.old owners.old }
    requires from { HasSeat (extent owners.old) from }
    requires to { HasSeat (extent owners.old) to }
    requires used { IsUsed owners.old from }
    requires free { infos owners.old to ≡ None }
    ensures agrees { agrees ram.new owners.new }
    ensures moves { Moves (tables ram.old owners.old) (tables ram.new owners.new) from to }
    ensures sizes { KeepsSizes (tables ram.old owners.old) (tables ram.new owners.new) }
    ensures pages { (f : ℕ) → table_frames (procs_of (extent owners.old)) ≤ f → pages ram.new f ≡ pages ram.old f }
{
    // For the prover: a slot's number fits its bits in an entry.
    owners.seats_are_few();
    let Some(info) = owners.info(from).copied() else {
        unreachable!();
    };
    reseat(ram, info.home, to);
    reseat(ram, holder(info), to);
    owners.set(from, None);
    owners.set(to, Some(info));
}
