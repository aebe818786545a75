//! Each step of the ledger leaves each place that it doesn't name.

ghost use Rattle.ledger_model.specs.Ledger.{Homed, Ledger, Orphaned, PageLoan, PageName, loan_at};
ghost use Rattle.ledger_model.specs.Loans.{of_number, orphan_loan_at, orphan_of_number};
ghost use Rattle.ledger_model.specs.Places.{in_run};
ghost use Rattle.ledger_model.specs.Steps.{end_loan, forget, give, lend, make, make_console, orphan_loan, pass, reduce, remove, write};
ghost use Rattle.std.specs.Prelude.{Bool, IsFalse, List, None, Some, ℕ, ◌≡◌, ◌≢◌};
ghost use Rattle.xk_base.specs.declared.ids.Number.{Number};
ghost use Rattle.xk_base.specs.declared.ids.Pid.{Pid};
ghost use Rattle.xk_base.specs.declared.ids.Place.{Place};
ghost use Rattle.xk_base.specs.declared.pages.LoanKind.{LoanKind};
ghost use Rattle.xk_base.specs.declared.pages.Right.{Right};

/// `make` leaves all places but those of its run.
pub fn make_leaves()
    ensures homes { (first : Place) (n : ℕ) (right : Right) (ledger : Ledger) (p : Place)
        → IsFalse (in_run first n p) → (make first n right ledger).home p ≡ ledger.home p }
    ensures orphans { (first : Place) (n : ℕ) (right : Right) (ledger : Ledger) (p : Place)
        → (make first n right ledger).orphan p ≡ ledger.orphan p }
{}

/// `make_console` leaves all places but its own.
pub fn make_console_leaves()
    ensures homes { (place : Place) (w : Bool) (ledger : Ledger) (p : Place) → p ≢ place
        → (make_console place w ledger).home p ≡ ledger.home p }
    ensures orphans { (place : Place) (w : Bool) (ledger : Ledger) (p : Place)
        → (make_console place w ledger).orphan p ≡ ledger.orphan p }
{}

/// `write` leaves all pages but the named one.
pub fn write_leaves()
    ensures homes { (name : PageName) (offset : ℕ) (bytes : List ℕ) (ledger : Ledger) (p : Place)
        → name ≢ Homed p → (write name offset bytes ledger).home p ≡ ledger.home p }
    ensures orphans { (name : PageName) (offset : ℕ) (bytes : List ℕ) (ledger : Ledger) (p : Place)
        → name ≢ Orphaned p → (write name offset bytes ledger).orphan p ≡ ledger.orphan p }
{}

/// `remove` leaves all homes but the named ones.
pub fn remove_leaves()
    ensures homes { (places : Place → Bool) (ledger : Ledger) (p : Place) → IsFalse (places p)
        → (remove places ledger).home p ≡ ledger.home p }
    ensures orphans { (places : Place → Bool) (ledger : Ledger) (p : Place)
        → (remove places ledger).orphan p ≡ ledger.orphan p }
{}

/// `reduce` leaves all homes but the named ones.
pub fn reduce_leaves()
    ensures homes { (places : Place → Bool) (right : Right) (ledger : Ledger) (p : Place) → IsFalse (places p)
        → (reduce places right ledger).home p ≡ ledger.home p }
    ensures orphans { (places : Place → Bool) (right : Right) (ledger : Ledger) (p : Place)
        → (reduce places right ledger).orphan p ≡ ledger.orphan p }
{}

/// `lend` leaves all homes but those of the lender's run.
pub fn lend_leaves()
    ensures homes { (from : Place) (n : ℕ) (to : Place) (kind : LoanKind) (number : Number) (ledger : Ledger) (p : Place)
        → IsFalse (in_run from n p) → (lend from n to kind number ledger).home p ≡ ledger.home p }
    ensures orphans { (from : Place) (n : ℕ) (to : Place) (kind : LoanKind) (number : Number) (ledger : Ledger) (p : Place)
        → (lend from n to kind number ledger).orphan p ≡ ledger.orphan p }
{}

/// `end_loan` leaves all pages and orphans but those of its number.
pub fn end_leaves()
    ensures homes { (number : Number) (ledger : Ledger) (p : Place)
        → of_number number (loan_at ledger p) ≡ None
        → (end_loan number ledger).home p ≡ ledger.home p }
    ensures orphans { (number : Number) (ledger : Ledger) (p : Place)
        → orphan_of_number number (orphan_loan_at ledger p) ≡ None
        → (end_loan number ledger).orphan p ≡ ledger.orphan p }
{}

/// `pass` leaves all pages but those on loan by its number, and all orphans.
pub fn pass_leaves()
    ensures homes { (number : Number) (from to : Place) (ledger : Ledger) (p : Place)
        → of_number number (loan_at ledger p) ≡ None
        → (pass number from to ledger).home p ≡ ledger.home p }
    ensures orphans { (number : Number) (from to : Place) (ledger : Ledger) (p : Place)
        → (pass number from to ledger).orphan p ≡ ledger.orphan p }
{}

/// `give` leaves all homes but those of its two runs.
pub fn give_leaves()
    ensures homes { (from : Place) (n : ℕ) (to : Place) (ledger : Ledger) (p : Place)
        → IsFalse (in_run to n p) → IsFalse (in_run from n p)
        → (give from n to ledger).home p ≡ ledger.home p }
    ensures orphans { (from : Place) (n : ℕ) (to : Place) (ledger : Ledger) (p : Place)
        → (give from n to ledger).orphan p ≡ ledger.orphan p }
{}

/// `orphan_loan` leaves all pages but those on loan by its number, and all places of orphans but
/// the holder places of that loan.
pub fn orphan_leaves()
    ensures homes { (procs : ℕ) (number : Number) (ledger : Ledger) (p : Place)
        → of_number number (loan_at ledger p) ≡ None
        → (orphan_loan procs number ledger).home p ≡ ledger.home p }
    ensures orphans { (procs : ℕ) (number : Number) (ledger : Ledger) (q : Place)
        → ((p : Place) (loan : PageLoan) → loan_at ledger p ≡ Some loan → loan.number ≡ number → loan.holder ≢ q)
        → (orphan_loan procs number ledger).orphan q ≡ ledger.orphan q }
{}

/// `forget` leaves the pages of every other process, and all orphans.
pub fn forget_leaves()
    ensures homes { (pid : Pid) (ledger : Ledger) (p : Place) → p.pid.0 ≢ pid.0
        → (forget pid ledger).home p ≡ ledger.home p }
    ensures orphans { (pid : Pid) (ledger : Ledger) (p : Place) → (forget pid ledger).orphan p ≡ ledger.orphan p }
{}
