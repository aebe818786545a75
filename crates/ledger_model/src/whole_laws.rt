//! Each step keeps the pages of a ledger whole.

ghost use Rattle.ledger_model.specs.Ledger.{Ledger, PageName};
ghost use Rattle.ledger_model.specs.Life.{LedgerStep, MayAll, after_all};
ghost use Rattle.ledger_model.specs.Steps.{end_loan, forget, give, lend, make, make_console, orphan_loan, pass, reduce, remove, write};
ghost use Rattle.ledger_model.specs.WholePages.{FitsPage, HasWholePages, IsPage, is_page};
ghost use Rattle.std.specs.Prelude.{Bool, IsTrue, List, ℕ, ◌↔◌};
ghost use Rattle.xk_base.specs.declared.ids.Number.{Number};
ghost use Rattle.xk_base.specs.declared.ids.Pid.{Pid};
ghost use Rattle.xk_base.specs.declared.ids.Place.{Place};
ghost use Rattle.xk_base.specs.declared.pages.LoanKind.{LoanKind};
ghost use Rattle.xk_base.specs.declared.pages.Right.{Right};

/// The test for a page's bytes is right.
pub fn page_test_is_right()
    ensures { (bytes : List ℕ) → IsTrue (is_page bytes) ↔ IsPage bytes }
{}

/// `make`, `make_console`, `remove`, `reduce` and `forget` keep pages whole, and `write` where its
/// bytes fit a page.
pub fn pages_stay_whole()
    ensures made { (first : Place) (n : ℕ) (right : Right) (ledger : Ledger) → HasWholePages ledger
        → HasWholePages (make first n right ledger) }
    ensures console { (place : Place) (w : Bool) (ledger : Ledger) → HasWholePages ledger
        → HasWholePages (make_console place w ledger) }
    ensures written { (name : PageName) (offset : ℕ) (bytes : List ℕ) (ledger : Ledger) → FitsPage offset bytes
        → HasWholePages ledger → HasWholePages (write name offset bytes ledger) }
    ensures removed { (places : Place → Bool) (ledger : Ledger) → HasWholePages ledger
        → HasWholePages (remove places ledger) }
    ensures reduced { (places : Place → Bool) (right : Right) (ledger : Ledger) → HasWholePages ledger
        → HasWholePages (reduce places right ledger) }
    ensures forgotten { (pid : Pid) (ledger : Ledger) → HasWholePages ledger → HasWholePages (forget pid ledger) }
{}

/// So do the steps of loans.
pub fn lent_pages_stay_whole()
    ensures lent { (from : Place) (n : ℕ) (to : Place) (kind : LoanKind) (number : Number) (ledger : Ledger)
        → HasWholePages ledger → HasWholePages (lend from n to kind number ledger) }
    ensures ended { (number : Number) (ledger : Ledger) → HasWholePages ledger
        → HasWholePages (end_loan number ledger) }
    ensures passed { (number : Number) (from to : Place) (ledger : Ledger) → HasWholePages ledger
        → HasWholePages (pass number from to ledger) }
    ensures given { (from : Place) (n : ℕ) (to : Place) (ledger : Ledger) → HasWholePages ledger
        → HasWholePages (give from n to ledger) }
    ensures orphaned { (procs : ℕ) (number : Number) (ledger : Ledger) → HasWholePages ledger
        → HasWholePages (orphan_loan procs number ledger) }
{}

/// Pages that are whole are so after any list of steps, each under its condition.
pub fn whole_after_all()
    ensures { (procs capacity : ℕ) (steps : List LedgerStep) (ledger : Ledger)
        → HasWholePages ledger → MayAll procs capacity steps ledger
        → HasWholePages (after_all procs steps ledger) }
{}
