//! A plain program beside the definitions: what the ledger of small tables has at a place.

ghost use Rattle.phys_pages.specs.Owners.{seat_eq};
ghost use Rattle.ledger_model.specs.Places.{same_place};
ghost use Rattle.std.specs.Prelude.{◌≡◌};
ghost use Rattle.std.specs.List.{find};
ghost use Rattle.std.specs.Option.{option_map};
ghost use Rattle.sv32_space.specs.Agreement.{loan_in};
ghost use Rattle.sv32_space.specs.EntryLedger.{SeatBytes, ledger_of, orphan_of_side, page_of_side};
ghost use Rattle.sv32_space.specs.Small.{entries_of, infos_of, orphan_told, page_told};

use crate::sides::{Entry, Side};
use phys_pages::{LoanInfo, PageInfo, Seat};
use xk_base::{LoanKind, Number, Place, Right};

/// The entry of a place.
#[derive(Clone, Copy, Debug, PartialEq, Eq)]
pub struct PlacedEntry {
    pub place: Place,
    pub entry: Entry,
}

/// Whose page is at a seat.
#[derive(Clone, Copy, Debug, PartialEq, Eq)]
pub struct SeatInfo {
    pub seat: Seat,
    pub info: PageInfo,
}

/// What the ledger has at a place.
#[derive(Clone, Copy, Debug, PartialEq, Eq)]
pub enum LedgerPlace {
    /// It is no home and no orphan's place.
    Nothing,
    /// It is a home. The console has no seat.
    Home {
        right: Right,
        seat: Option<Seat>,
        loan: Option<LoanInfo>,
    },
    /// It is an orphan's place.
    Orphan {
        kind: LoanKind,
        seat: Seat,
        number: Number,
    },
}

fn is_same_place(p: Place, q: Place) -> bool
    ensures { result ≡ same_place p q }
{
    p.pid.0 == q.pid.0 && p.vpn.0 == q.vpn.0
}

fn is_same_seat(s: Seat, t: Seat) -> bool
    ensures { result ≡ seat_eq s t }
{
    match (s, t) {
        (Seat::Frame(f), Seat::Frame(g)) => f.0 == g.0,
        (Seat::Slot(r), Seat::Slot(q)) => r.0 == q.0,
        (Seat::Frame(_), Seat::Slot(_)) => false,
        (Seat::Slot(_), Seat::Frame(_)) => false,
    }
}

fn entry_at(entries: &[PlacedEntry], place: Place) -> Option<PlacedEntry>
    ensures { result ≡ find (λ e. same_place e.place place) entries.now }
{
    entries
        .iter()
        .copied()
        .find(|e| is_same_place(e.place, place))
}

fn row_of(infos: &[SeatInfo], seat: Seat) -> Option<SeatInfo>
    ensures { result ≡ find (λ i. seat_eq i.seat seat) infos.now }
{
    infos.iter().copied().find(|i| is_same_seat(i.seat, seat))
}

#[tactic(auto, unfolding(crate::specs::Small::infos_of))]
fn info_at(infos: &[SeatInfo], seat: Seat) -> Option<PageInfo>
    ensures { result ≡ infos_of infos.now seat }
{
    match row_of(infos, seat) {
        Some(row) => Some(row.info),
        None => None,
    }
}

// The loan that is said of a seat.
fn loan_of(info: Option<PageInfo>) -> Option<LoanInfo>
    ensures { result ≡ loan_in info }
{
    match info {
        Some(info) => info.loan,
        None => None,
    }
}

// What a holder's place is: an orphan's, where the seat has no home.
fn held(info: Option<PageInfo>, seat: Seat) -> LedgerPlace
    ensures home { (B : SeatBytes) → page_told B result ≡ page_of_side Side.LentIn info (B seat) }
    ensures orphan { (B : SeatBytes) → orphan_told B result ≡ orphan_of_side Side.LentIn info (B seat) }
{
    match info {
        None => LedgerPlace::Nothing,
        Some(info) => match (info.home, info.loan) {
            (None, Some(loan)) => LedgerPlace::Orphan {
                kind: loan.kind,
                seat,
                number: loan.number,
            },
            (_, _) => LedgerPlace::Nothing,
        },
    }
}

// What a place is whose entry has that side of the page at a seat.
fn place_of_side(side: Side, seat: Seat, info: Option<PageInfo>) -> LedgerPlace
    ensures home { (B : SeatBytes) → page_told B result ≡ page_of_side side info (B seat) }
    ensures orphan { (B : SeatBytes) → orphan_told B result ≡ orphan_of_side side info (B seat) }
{
    let (right, loan) = match side {
        Side::Own(right) => (right, None),
        Side::LentOut(right) => (right, loan_of(info)),
        Side::MutOut { x } => (Right { w: true, x }, loan_of(info)),
        Side::LentIn => return held(info, seat),
        Side::MutIn => return held(info, seat),
    };
    LedgerPlace::Home {
        right,
        seat: Some(seat),
        loan,
    }
}

/// What the ledger of these entries and owners has at a place.
#[tactic(auto, unfolding(crate::specs::EntryLedger::ledger_of, crate::specs::Small::entries_of))]
pub fn ledger_at(entries: &[PlacedEntry], infos: &[SeatInfo], place: Place) -> LedgerPlace
    ensures home { (B : SeatBytes)
        → page_told B result ≡ (ledger_of (entries_of entries.now) (infos_of infos.now) B).home place }
    ensures orphan { (B : SeatBytes)
        → orphan_told B result ≡ (ledger_of (entries_of entries.now) (infos_of infos.now) B).orphan place }
{
    match entry_at(entries, place) {
        None => LedgerPlace::Nothing,
        Some(placed) => match placed.entry {
            Entry::Free => LedgerPlace::Nothing,
            Entry::OnConsole { w } => LedgerPlace::Home {
                right: Right { w, x: false },
                seat: None,
                loan: None,
            },
            Entry::At { side, seat } => place_of_side(side, seat, info_at(infos, seat)),
        },
    }
}
