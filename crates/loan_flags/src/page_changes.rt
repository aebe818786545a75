//! The loan of one page, in the entries of its places and in what the owner table says of its seat.

ghost use Rattle.ledger_model.specs.Places.{in_run};
ghost use Rattle.ledger_model.specs.Steps.{give, lend};
ghost use Rattle.loan_flags.specs.Keeping.{KeepsPages, IsLedgerStep, entries_of, tables};
ghost use Rattle.loan_flags.specs.PageLoans.{IsLendable, IsLentFrom, IsOrphaned, IsOwn};
ghost use Rattle.phys_pages.specs.Owners.{HasSeat, extent, infos};
ghost use Rattle.phys_pages.specs.Ram.{area};
ghost use Rattle.std.specs.Prelude.{Some, ◌≡◌, ◌≢◌};
ghost use Rattle.sv32_space.specs.Agreement.{holder_side, lender_side, right_in, right_of_side, seat_in};
ghost use Rattle.sv32_space.specs.declared.sides.Entry.TheVariants.{At, Free};
ghost use Rattle.sv32_space.specs.PageSteps.{end_at, forget_orphans, orphan_run, pass_run};
ghost use Rattle.sv32_space.specs.SpelledEntries.{IsEntry};
ghost use Rattle.sv32_space.specs.Tie.{agrees};
ghost use Rattle.sv32_space.specs.declared.sides.Side.TheVariants.{Own};

use phys_pages::{LoanInfo, Owners, PageInfo, Ram, Seat};
use sv32_space::{Entry, Side, entry_at, set_entry};
use xk_base::{LoanKind, Place, Right};

// What the lender's entry says.
pub(crate) fn lender_side(kind: LoanKind, right: Right) -> Side
    ensures { result ≡ lender_side kind right }
{
    match kind {
        LoanKind::Shared => Side::LentOut(right),
        LoanKind::Exclusive => Side::MutOut { x: right.x },
    }
}

// What the holder's entry says.
pub(crate) fn holder_side(kind: LoanKind) -> Side
    ensures { result ≡ holder_side kind }
{
    match kind {
        LoanKind::Shared => Side::LentIn,
        LoanKind::Exclusive => Side::MutIn,
    }
}

// The right and the seat of a page at its home, without a loan.
#[tactic(auto, using(crate::proofs::PageChangeLemmas::own_page_laws))]
fn own_page(ram: &Ram, owners: &Owners, home: Place) -> (Right, Seat)
    requires agrees { agrees ram.now owners.now }
    requires own { IsOwn (entries_of (tables ram.now owners.now)) home }
    ensures entry { entries_of (tables ram.now owners.now) home ≡ Some (At (Own result.0) result.1) }
    ensures fits { IsEntry (area ram.now) (At (Own result.0) result.1) }
    ensures seat { HasSeat (extent owners.now) result.1 }
{
    match entry_at(ram, home) {
        Some(Entry::At { side, seat }) => match side {
            Side::Own(right) => (right, seat),
            _ => unreachable!(),
        },
        _ => unreachable!(),
    }
}

// A page at its home, without a loan, goes on loan to a free place.
pub(crate) fn lend_page(ram: &mut Ram, owners: &mut Owners, home: Place, loan: LoanInfo)
    requires agrees { agrees ram.old owners.old }
    requires page { IsLendable (entries_of (tables ram.old owners.old)) loan.kind home }
    requires free { entries_of (tables ram.old owners.old) loan.holder ≡ Some Free }
    ensures agrees { agrees ram.new owners.new }
    ensures step { IsLedgerStep (lend home 1 loan.holder loan.kind loan.number) (tables ram.old owners.old) (tables ram.new owners.new) }
    ensures others { (p : Place) → p ≢ home → p ≢ loan.holder
        → entries_of (tables ram.new owners.new) p ≡ entries_of (tables ram.old owners.old) p }
    ensures keeps { KeepsPages (tables ram.old owners.old) (tables ram.new owners.new) }
{
    let (right, seat) = own_page(ram, owners, home);
    set_entry(
        ram,
        home,
        Entry::At {
            side: lender_side(loan.kind, right),
            seat,
        },
    );
    set_entry(
        ram,
        loan.holder,
        Entry::At {
            side: holder_side(loan.kind),
            seat,
        },
    );
    owners.set(
        seat,
        Some(PageInfo {
            home: Some(home),
            loan: Some(loan),
        }),
    );
}

// The right that a home's entry tells, or the former one.
fn right_told(side: Side) -> Right
    ensures { result ≡ right_of_side side }
{
    match side {
        Side::Own(right) => right,
        Side::LentOut(right) => right,
        Side::LentIn => Right { w: false, x: false },
        Side::MutOut { x } => Right { w: true, x },
        Side::MutIn => Right { w: false, x: false },
    }
}

// The former right and the seat of a page on loan.
#[tactic(auto, using(crate::proofs::PageChangeLemmas::loan_page_laws))]
fn lent_page(ram: &Ram, owners: &Owners, home: Place, loan: LoanInfo) -> (Right, Seat)
    requires agrees { agrees ram.now owners.now }
    requires lent { IsLentFrom (entries_of (tables ram.now owners.now)) (infos owners.now) home loan }
    ensures right { result.0 ≡ right_in (entries_of (tables ram.now owners.now) home) }
    ensures seat { result.1 ≡ seat_in (entries_of (tables ram.now owners.now) home) }
    ensures fits { IsEntry (area ram.now) (At (Own result.0) result.1) }
    ensures within { HasSeat (extent owners.now) result.1 }
{
    match entry_at(ram, home) {
        Some(Entry::At { side, seat }) => (right_told(side), seat),
        _ => unreachable!(),
    }
}

// The loan of a page with a lender ends: its home has its former right.
#[tactic(auto, using(crate::proofs::PageChangeLemmas::entry_made, crate::proofs::PageChangeLemmas::entry_window))]
pub(crate) fn end_page(ram: &mut Ram, owners: &mut Owners, home: Place, loan: LoanInfo)
    requires agrees { agrees ram.old owners.old }
    requires lent { IsLentFrom (entries_of (tables ram.old owners.old)) (infos owners.old) home loan }
    ensures agrees { agrees ram.new owners.new }
    ensures step { IsLedgerStep (end_at (in_run home 1)) (tables ram.old owners.old) (tables ram.new owners.new) }
    ensures others { (p : Place) → p ≢ home → p ≢ loan.holder
        → entries_of (tables ram.new owners.new) p ≡ entries_of (tables ram.old owners.old) p }
    ensures infos { (t : Seat) → t ≢ seat_in (entries_of (tables ram.old owners.old) home) → infos owners.new t ≡ infos owners.old t }
    ensures keeps { KeepsPages (tables ram.old owners.old) (tables ram.new owners.new) }
{
    let (right, seat) = lent_page(ram, owners, home, loan);
    set_entry(
        ram,
        home,
        Entry::At {
            side: Side::Own(right),
            seat,
        },
    );
    set_entry(ram, loan.holder, Entry::Free);
    owners.set(
        seat,
        Some(PageInfo {
            home: Some(home),
            loan: None,
        }),
    );
}

// A page on loan with a lender goes on to another holder, at a free place.
#[tactic(auto, using(crate::proofs::PageChangeLemmas::entry_made, crate::proofs::PageChangeLemmas::entry_window))]
pub(crate) fn pass_page(ram: &mut Ram, owners: &mut Owners, home: Place, loan: LoanInfo, to: Place)
    requires agrees { agrees ram.old owners.old }
    requires lent { IsLentFrom (entries_of (tables ram.old owners.old)) (infos owners.old) home loan }
    requires free { entries_of (tables ram.old owners.old) to ≡ Some Free }
    ensures agrees { agrees ram.new owners.new }
    ensures step { IsLedgerStep (pass_run home 1 to) (tables ram.old owners.old) (tables ram.new owners.new) }
    ensures others { (p : Place) → p ≢ loan.holder → p ≢ to
        → entries_of (tables ram.new owners.new) p ≡ entries_of (tables ram.old owners.old) p }
    ensures infos { (t : Seat) → t ≢ seat_in (entries_of (tables ram.old owners.old) home) → infos owners.new t ≡ infos owners.old t }
    ensures keeps { KeepsPages (tables ram.old owners.old) (tables ram.new owners.new) }
{
    let (_, seat) = lent_page(ram, owners, home, loan);
    set_entry(ram, loan.holder, Entry::Free);
    set_entry(
        ram,
        to,
        Entry::At {
            side: holder_side(loan.kind),
            seat,
        },
    );
    let loan = LoanInfo {
        holder: to,
        kind: loan.kind,
        number: loan.number,
    };
    owners.set(
        seat,
        Some(PageInfo {
            home: Some(home),
            loan: Some(loan),
        }),
    );
}

// A page without a loan gets another home, at a free place.
pub(crate) fn give_page(ram: &mut Ram, owners: &mut Owners, from: Place, to: Place)
    requires agrees { agrees ram.old owners.old }
    requires page { IsOwn (entries_of (tables ram.old owners.old)) from }
    requires free { entries_of (tables ram.old owners.old) to ≡ Some Free }
    ensures agrees { agrees ram.new owners.new }
    ensures step { IsLedgerStep (give from 1 to) (tables ram.old owners.old) (tables ram.new owners.new) }
    ensures others { (p : Place) → p ≢ from → p ≢ to
        → entries_of (tables ram.new owners.new) p ≡ entries_of (tables ram.old owners.old) p }
    ensures keeps { KeepsPages (tables ram.old owners.old) (tables ram.new owners.new) }
{
    let (right, seat) = own_page(ram, owners, from);
    set_entry(ram, from, Entry::Free);
    set_entry(
        ram,
        to,
        Entry::At {
            side: Side::Own(right),
            seat,
        },
    );
    owners.set(
        seat,
        Some(PageInfo {
            home: Some(to),
            loan: None,
        }),
    );
}

// The loan of a page goes on without its lender: the home is free, and the holder's place has an orphan.
#[tactic(auto, using(crate::proofs::PageChangeLemmas::entry_made, crate::proofs::PageChangeLemmas::entry_window))]
pub(crate) fn orphan_page(ram: &mut Ram, owners: &mut Owners, home: Place, loan: LoanInfo)
    requires agrees { agrees ram.old owners.old }
    requires lent { IsLentFrom (entries_of (tables ram.old owners.old)) (infos owners.old) home loan }
    ensures agrees { agrees ram.new owners.new }
    ensures step { IsLedgerStep (orphan_run home 1 loan.holder) (tables ram.old owners.old) (tables ram.new owners.new) }
    ensures others { (p : Place) → p ≢ home
        → entries_of (tables ram.new owners.new) p ≡ entries_of (tables ram.old owners.old) p }
    ensures infos { (t : Seat) → t ≢ seat_in (entries_of (tables ram.old owners.old) home) → infos owners.new t ≡ infos owners.old t }
    ensures keeps { KeepsPages (tables ram.old owners.old) (tables ram.new owners.new) }
{
    let (_, seat) = lent_page(ram, owners, home, loan);
    set_entry(ram, home, Entry::Free);
    owners.set(
        seat,
        Some(PageInfo {
            home: None,
            loan: Some(loan),
        }),
    );
}

// An orphan is forgotten.
#[tactic(auto, using(crate::proofs::PageChangeLemmas::orphan_page_laws))]
pub(crate) fn forget_page(ram: &mut Ram, owners: &mut Owners, loan: LoanInfo)
    requires agrees { agrees ram.old owners.old }
    requires orphan { IsOrphaned (entries_of (tables ram.old owners.old)) (infos owners.old) loan }
    ensures agrees { agrees ram.new owners.new }
    ensures step { IsLedgerStep (forget_orphans (in_run loan.holder 1)) (tables ram.old owners.old) (tables ram.new owners.new) }
    ensures others { (p : Place) → p ≢ loan.holder
        → entries_of (tables ram.new owners.new) p ≡ entries_of (tables ram.old owners.old) p }
    ensures infos { (t : Seat) → t ≢ seat_in (entries_of (tables ram.old owners.old) loan.holder)
        → infos owners.new t ≡ infos owners.old t }
    ensures keeps { KeepsPages (tables ram.old owners.old) (tables ram.new owners.new) }
{
    let seat = seat_at(ram, owners, loan);
    set_entry(ram, loan.holder, Entry::Free);
    owners.set(seat, None);
}

// The seat of an orphan.
#[tactic(auto, using(crate::proofs::PageChangeLemmas::orphan_page_laws))]
fn seat_at(ram: &Ram, owners: &Owners, loan: LoanInfo) -> Seat
    requires agrees { agrees ram.now owners.now }
    requires orphan { IsOrphaned (entries_of (tables ram.now owners.now)) (infos owners.now) loan }
    ensures seat { result ≡ seat_in (entries_of (tables ram.now owners.now) loan.holder) }
    ensures within { HasSeat (extent owners.now) result }
{
    match entry_at(ram, loan.holder) {
        Some(Entry::At { side: _, seat }) => seat,
        _ => unreachable!(),
    }
}
