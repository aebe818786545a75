//! How many pages there are after each step. The console isn't counted.

ghost use Rattle.ledger_model.specs.Conditions.{CanGive, CanMake, CanMakeConsole};
ghost use Rattle.ledger_model.specs.Lawful.{IsLawful};
ghost use Rattle.ledger_model.specs.Ledger.{Ledger, PageName, is_counted, pages};
ghost use Rattle.ledger_model.specs.Loans.{LoanRun, Stands, loans};
ghost use Rattle.ledger_model.specs.Places.{count_places};
ghost use Rattle.ledger_model.specs.Steps.{end_loan, forget, give, lend, make, make_console, orphan_loan, pass, reduce, remove, write};
ghost use Rattle.std.specs.Prelude.{Bool, List, None, Some, ℕ, ◌&&◌, ◌+◌, ◌==◌, ◌≡◌};
ghost use Rattle.xk_base.specs.declared.ids.Number.{Number};
ghost use Rattle.xk_base.specs.declared.ids.Pid.{Pid};
ghost use Rattle.xk_base.specs.declared.ids.Place.{Place};
ghost use Rattle.xk_base.specs.declared.pages.LoanKind.{LoanKind};
ghost use Rattle.xk_base.specs.declared.pages.Right.{Right};

/// `make` adds n pages, and `make_console` none.
pub fn pages_after_make()
    ensures made { (procs capacity : ℕ) (first : Place) (n : ℕ) (right : Right) (ledger : Ledger)
        → CanMake procs capacity ledger first n
        → pages procs (make first n right ledger) ≡ pages procs ledger + n }
    ensures console { (procs : ℕ) (place : Place) (w : Bool) (ledger : Ledger)
        → CanMakeConsole procs ledger place
        → pages procs (make_console place w ledger) ≡ pages procs ledger }
{}

/// `remove` and `forget` take away the pages at their places, the console not counted.
pub fn pages_after_remove()
    ensures removed { (procs : ℕ) (places : Place → Bool) (ledger : Ledger)
        → pages procs (remove places ledger) + count_places procs (λ p. is_counted (ledger.home p) && places p)
        ≡ pages procs ledger }
    ensures forgotten { (procs : ℕ) (pid : Pid) (ledger : Ledger)
        → pages procs (forget pid ledger) + count_places procs (λ p. is_counted (ledger.home p) && (p.pid.0 == pid.0))
        ≡ pages procs ledger }
{}

/// `write`, `reduce`, `lend`, `pass`, `give` and `orphan_loan` keep the number of pages.
pub fn pages_are_kept()
    ensures written { (procs : ℕ) (name : PageName) (offset : ℕ) (bytes : List ℕ) (ledger : Ledger)
        → pages procs (write name offset bytes ledger) ≡ pages procs ledger }
    ensures reduced { (procs : ℕ) (places : Place → Bool) (right : Right) (ledger : Ledger)
        → pages procs (reduce places right ledger) ≡ pages procs ledger }
    ensures lent { (procs : ℕ) (from : Place) (n : ℕ) (to : Place) (kind : LoanKind) (number : Number) (ledger : Ledger)
        → pages procs (lend from n to kind number ledger) ≡ pages procs ledger }
    ensures passed { (procs : ℕ) (number : Number) (from to : Place) (ledger : Ledger)
        → pages procs (pass number from to ledger) ≡ pages procs ledger }
    ensures given { (procs : ℕ) (from : Place) (n : ℕ) (to : Place) (ledger : Ledger)
        → CanGive procs ledger from n to → (capacity : ℕ) → IsLawful procs capacity ledger
        → pages procs (give from n to ledger) ≡ pages procs ledger }
    ensures orphaned { (procs capacity : ℕ) (number : Number) (ledger : Ledger) → IsLawful procs capacity ledger
        → pages procs (orphan_loan procs number ledger) ≡ pages procs ledger }
{}

/// The end of a loan with a lender keeps the number of pages; that of a loan without one takes its
/// pages away.
pub fn pages_after_end()
    ensures lent { (procs : ℕ) (ledger : Ledger) (loan : LoanRun) → Stands (loans ledger) loan
        → (from : Place) → loan.lender ≡ Some from
        → pages procs (end_loan loan.number ledger) ≡ pages procs ledger }
    ensures orphans { (procs capacity : ℕ) (ledger : Ledger) (loan : LoanRun) → IsLawful procs capacity ledger
        → Stands (loans ledger) loan → loan.lender ≡ None
        → pages procs (end_loan loan.number ledger) + loan.count ≡ pages procs ledger }
{}
