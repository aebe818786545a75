//! How many seats are used.

ghost use Rattle.ledger_model.specs.Ledger.{pages};
ghost use Rattle.phys_pages.specs.Owners.{Extent, HasSeat};
ghost use Rattle.phys_pages.specs.declared.infos.PageInfo.{PageInfo};
ghost use Rattle.phys_pages.specs.declared.infos.Seat.{Seat};
ghost use Rattle.std.specs.Prelude.{IsTrue, Some, is_some, ℕ, ◌+◌, ◌≡◌};
ghost use Rattle.sv32_space.specs.Agreement.{EntriesAgree, Infos};
ghost use Rattle.sv32_space.specs.Entries.{Entries};
ghost use Rattle.sv32_space.specs.EntryLedger.{SeatBytes, ledger_of, used_seats};

/// As many seats are used as there are pages and orphans; where all are used, there are as many as seats.
pub fn used_seats_are_pages()
    ensures used { (procs : ℕ) (E : Entries) (I : Infos) (B : SeatBytes) (table : Extent) → EntriesAgree procs E I
        → ((s : Seat) (info : PageInfo) → I s ≡ Some info → HasSeat table s)
        → used_seats table I ≡ pages procs (ledger_of E I B) }
    ensures all { (procs : ℕ) (E : Entries) (I : Infos) (B : SeatBytes) (table : Extent) → EntriesAgree procs E I
        → ((s : Seat) (info : PageInfo) → I s ≡ Some info → HasSeat table s)
        → ((s : Seat) → HasSeat table s → IsTrue (is_some (I s)))
        → pages procs (ledger_of E I B) ≡ table.frames + table.slots }
{}
