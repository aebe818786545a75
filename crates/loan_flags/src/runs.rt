//! Loans of runs of pages. Each call goes page by page, and looks at the pages of its runs alone.

ghost use Rattle.ledger_model.specs.Loans.{with_holder, without_lender};
ghost use Rattle.ledger_model.specs.Places.{in_run, is_place_in, place_after};
ghost use Rattle.ledger_model.specs.Steps.{give, lend, orphan_loan, pass};
ghost use Rattle.loan_flags.specs.Ending.{EndsSo};
ghost use Rattle.loan_flags.specs.Keeping.{KeepsPages, IsLedgerStep, entries_of, processes, tables};
ghost use Rattle.loan_flags.specs.Sending.{mem_kind, send_answer};
ghost use Rattle.phys_pages.specs.Owners.{infos};
ghost use Rattle.std.specs.Prelude.{IsFalse, IsTrue, None, Ok, Some, is_some, ℕ, ◌+◌, ◌<◌, ◌^◌, ◌≡◌, ◌≤◌};
ghost use Rattle.sv32_space.specs.declared.sides.Entry.TheVariants.{Free};
ghost use Rattle.sv32_space.specs.EntryLoans.{IsUnlent, StandsIn};
ghost use Rattle.sv32_space.specs.Tie.{agrees};
ghost use Rattle.xk_base.specs.declared.messages.MemKind.TheVariants.{Move};
ghost use Rattle.xk_base.specs.declared.windows.Window.TheVariants.{Message};

use crate::loan::Loan;
use crate::page_changes::{end_page, forget_page, give_page, lend_page, orphan_page, pass_page};
use phys_pages::{LoanInfo, Owners, Ram};
use xk_base::{LoanKind, Number, Place, Vpn};

// The place `i` pages above another.
fn above(first: Place, i: u32) -> Place
    requires { first.vpn.0 + i < 2 ^ 32 }
    ensures { result ≡ place_after first i }
{
    Place {
        pid: first.pid,
        vpn: Vpn(first.vpn.0 + i),
    }
}

/// Lends the n pages from a place on, which may be sent so, to the n free places from `to` on.
pub fn lend_run(
    ram: &mut Ram,
    owners: &mut Owners,
    from: Place,
    n: u32,
    to: Place,
    kind: LoanKind,
    number: Number,
) -> Loan
    requires agrees { agrees ram.old owners.old }
    requires some { 1 ≤ n }
    requires may { send_answer (entries_of (tables ram.old owners.old)) from n (mem_kind kind) ≡ Ok tt }
    requires free { (p : Place) → IsTrue (in_run to n p) → entries_of (tables ram.old owners.old) p ≡ Some Free }
    requires lies { (p : Place) → IsTrue (in_run to n p) → IsTrue (is_place_in (processes (tables ram.old owners.old)) Message p) }
    requires unlent { IsUnlent (infos owners.old) number }
    ensures loan { result ≡ record { lender = Some from; holder = to; count = n; kind = kind; number = number } }
    ensures agrees { agrees ram.new owners.new }
    ensures step { IsLedgerStep (lend from n to kind number) (tables ram.old owners.old) (tables ram.new owners.new) }
    ensures stands { StandsIn (entries_of (tables ram.new owners.new)) (infos owners.new) result }
    ensures others { (p : Place) → IsFalse (in_run from n p) → IsFalse (in_run to n p)
        → entries_of (tables ram.new owners.new) p ≡ entries_of (tables ram.old owners.old) p }
    ensures keeps { KeepsPages (tables ram.old owners.old) (tables ram.new owners.new) }
{
    for i in 0..n {
        let loan = LoanInfo {
            holder: above(to, i),
            kind,
            number,
        };
        lend_page(ram, owners, above(from, i), loan);
    }
    Loan::lent(from, to, n, kind, number)
}

/// Moves the n pages from a place on, which may be sent in a move, with their rights to the n free
/// places from `to` on.
pub fn give_run(ram: &mut Ram, owners: &mut Owners, from: Place, n: u32, to: Place)
    requires agrees { agrees ram.old owners.old }
    requires some { 1 ≤ n }
    requires may { send_answer (entries_of (tables ram.old owners.old)) from n Move ≡ Ok tt }
    requires free { (p : Place) → IsTrue (in_run to n p) → entries_of (tables ram.old owners.old) p ≡ Some Free }
    requires lies { (p : Place) → IsTrue (in_run to n p) → IsTrue (is_place_in (processes (tables ram.old owners.old)) Message p) }
    ensures agrees { agrees ram.new owners.new }
    ensures step { IsLedgerStep (give from n to) (tables ram.old owners.old) (tables ram.new owners.new) }
    ensures others { (p : Place) → IsFalse (in_run from n p) → IsFalse (in_run to n p)
        → entries_of (tables ram.new owners.new) p ≡ entries_of (tables ram.old owners.old) p }
    ensures keeps { KeepsPages (tables ram.old owners.old) (tables ram.new owners.new) }
{
    for i in 0..n {
        give_page(ram, owners, above(from, i), above(to, i));
    }
}

// The first place of a loan's lender.
fn lender_of(loan: &Loan) -> Place
    requires { IsTrue (is_some loan.now.lender) }
    ensures { loan.now.lender ≡ Some result }
{
    match loan.lender() {
        Some(from) => from,
        None => unreachable!(),
    }
}

/// Passes a loan with a lender on to the free places from `to` on. The lender's pages stay.
pub fn pass_run(ram: &mut Ram, owners: &mut Owners, loan: Loan, to: Place) -> Loan
    requires agrees { agrees ram.old owners.old }
    requires stands { StandsIn (entries_of (tables ram.old owners.old)) (infos owners.old) loan }
    requires lent { IsTrue (is_some loan.lender) }
    requires free { (p : Place) → IsTrue (in_run to loan.count p) → entries_of (tables ram.old owners.old) p ≡ Some Free }
    requires lies { (p : Place) → IsTrue (in_run to loan.count p) → IsTrue (is_place_in (processes (tables ram.old owners.old)) Message p) }
    ensures loan { result ≡ with_holder to loan }
    ensures agrees { agrees ram.new owners.new }
    ensures step { IsLedgerStep (pass loan.number loan.holder to) (tables ram.old owners.old) (tables ram.new owners.new) }
    ensures stands { StandsIn (entries_of (tables ram.new owners.new)) (infos owners.new) result }
    ensures others { (p : Place) → IsFalse (in_run loan.holder loan.count p) → IsFalse (in_run to loan.count p)
        → entries_of (tables ram.new owners.new) p ≡ entries_of (tables ram.old owners.old) p }
    ensures keeps { KeepsPages (tables ram.old owners.old) (tables ram.new owners.new) }
{
    let from = lender_of(&loan);
    let holder = loan.holder();
    let kind = loan.kind();
    let number = loan.number();
    for i in 0..loan.count() {
        let page = LoanInfo {
            holder: above(holder, i),
            kind,
            number,
        };
        pass_page(ram, owners, above(from, i), page, above(to, i));
    }
    loan.moved_to(to)
}

/// Takes the lender from a loan: the lender's places are free, and the pages are orphans at the
/// holder's places.
pub fn orphan_run(ram: &mut Ram, owners: &mut Owners, loan: Loan) -> Loan
    requires agrees { agrees ram.old owners.old }
    requires stands { StandsIn (entries_of (tables ram.old owners.old)) (infos owners.old) loan }
    requires lent { IsTrue (is_some loan.lender) }
    ensures loan { result ≡ without_lender loan }
    ensures agrees { agrees ram.new owners.new }
    ensures step { IsLedgerStep (orphan_loan (processes (tables ram.old owners.old)) loan.number) (tables ram.old owners.old)
        (tables ram.new owners.new) }
    ensures stands { StandsIn (entries_of (tables ram.new owners.new)) (infos owners.new) result }
    ensures others { (from : Place) → loan.lender ≡ Some from → (p : Place) → IsFalse (in_run from loan.count p)
        → entries_of (tables ram.new owners.new) p ≡ entries_of (tables ram.old owners.old) p }
    ensures keeps { KeepsPages (tables ram.old owners.old) (tables ram.new owners.new) }
{
    let from = lender_of(&loan);
    let holder = loan.holder();
    let kind = loan.kind();
    let number = loan.number();
    for i in 0..loan.count() {
        let page = LoanInfo {
            holder: above(holder, i),
            kind,
            number,
        };
        orphan_page(ram, owners, above(from, i), page);
    }
    loan.orphaned()
}

// Ends a loan with a lender, page by page.
fn end_lent(ram: &mut Ram, owners: &mut Owners, loan: &Loan, from: Place)
    requires agrees { agrees ram.old owners.old }
    requires stands { StandsIn (entries_of (tables ram.old owners.old)) (infos owners.old) loan.now }
    requires lent { loan.now.lender ≡ Some from }
    ensures { EndsSo (tables ram.old owners.old) (tables ram.new owners.new) loan.now }
{
    let holder = loan.holder();
    let kind = loan.kind();
    let number = loan.number();
    for i in 0..loan.count() {
        let page = LoanInfo {
            holder: above(holder, i),
            kind,
            number,
        };
        end_page(ram, owners, above(from, i), page);
    }
}

// Forgets the orphans of a loan without a lender, page by page.
fn end_orphans(ram: &mut Ram, owners: &mut Owners, loan: &Loan)
    requires agrees { agrees ram.old owners.old }
    requires stands { StandsIn (entries_of (tables ram.old owners.old)) (infos owners.old) loan.now }
    requires alone { loan.now.lender ≡ None }
    ensures { EndsSo (tables ram.old owners.old) (tables ram.new owners.new) loan.now }
{
    let holder = loan.holder();
    let kind = loan.kind();
    let number = loan.number();
    for i in 0..loan.count() {
        let page = LoanInfo {
            holder: above(holder, i),
            kind,
            number,
        };
        forget_page(ram, owners, page);
    }
}

/// Ends a loan: the lender's pages have their former rights again, or the orphans are forgotten. The
/// holder's places are free.
pub fn end_run(ram: &mut Ram, owners: &mut Owners, loan: Loan)
    requires agrees { agrees ram.old owners.old }
    requires stands { StandsIn (entries_of (tables ram.old owners.old)) (infos owners.old) loan }
    ensures { EndsSo (tables ram.old owners.old) (tables ram.new owners.new) loan }
{
    match loan.lender() {
        Some(from) => end_lent(ram, owners, &loan, from),
        None => end_orphans(ram, owners, &loan),
    }
    loan.spend();
}
