//! The bytes of seats, and pages that move from one seat to another.

ghost use Rattle.ledger_model.specs.WholePages.{HasWholePages, IsPage};
ghost use Rattle.phys_pages.specs.declared.infos.PageInfo.{PageInfo};
ghost use Rattle.phys_pages.specs.declared.infos.Seat.{Seat};
ghost use Rattle.std.specs.Prelude.{Some, ℕ, ◌≡◌};
ghost use Rattle.sv32_space.specs.Agreement.{EntriesAgree, Infos};
ghost use Rattle.sv32_space.specs.Entries.{Entries};
ghost use Rattle.sv32_space.specs.EntryLedger.{SeatBytes, ledger_of};
ghost use Rattle.sv32_space.specs.Tie.{Held, slot_bytes};

/// The pages of a ledger are whole where the bytes of each used seat are a page's. Those of a slot
/// always are, whatever a store tells.
pub fn pages_are_whole()
    ensures ledger { (procs : ℕ) (E : Entries) (I : Infos) (B : SeatBytes) → EntriesAgree procs E I
        → ((s : Seat) (info : PageInfo) → I s ≡ Some info → IsPage (B s)) → HasWholePages (ledger_of E I B) }
    ensures slots { (held : Held) (s : ℕ) → IsPage (slot_bytes held s) }
{}
