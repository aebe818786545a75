//! Each step keeps the ledger lawful, under the condition of the step.

ghost use Rattle.ledger_model.specs.Conditions.{CanForget, CanGive, CanLend, CanMake, CanMakeConsole, CanPass, CanReduce, CanRemove};
ghost use Rattle.ledger_model.specs.Conditions.{CanWrite};
ghost use Rattle.ledger_model.specs.Lawful.{IsLawful};
ghost use Rattle.ledger_model.specs.Ledger.{Ledger, PageName};
ghost use Rattle.ledger_model.specs.Life.{LedgerStep, MayAll, after_all};
ghost use Rattle.ledger_model.specs.Loans.{LoanRun};
ghost use Rattle.ledger_model.specs.Steps.{end_loan, forget, give, lend, make, make_console, orphan_loan, pass, reduce, remove, write};
ghost use Rattle.std.specs.Prelude.{Bool, List, ℕ};
ghost use Rattle.xk_base.specs.declared.ids.Number.{Number};
ghost use Rattle.xk_base.specs.declared.ids.Pid.{Pid};
ghost use Rattle.xk_base.specs.declared.ids.Place.{Place};
ghost use Rattle.xk_base.specs.declared.pages.LoanKind.{LoanKind};
ghost use Rattle.xk_base.specs.declared.pages.Right.{Right};

/// `make` keeps the ledger lawful.
pub fn lawful_after_make()
    ensures { (procs capacity : ℕ) (first : Place) (n : ℕ) (right : Right) (ledger : Ledger)
        → IsLawful procs capacity ledger → CanMake procs capacity ledger first n
        → IsLawful procs capacity (make first n right ledger) }
{}

/// `make_console` keeps the ledger lawful.
pub fn lawful_after_make_console()
    ensures { (procs capacity : ℕ) (place : Place) (w : Bool) (ledger : Ledger)
        → IsLawful procs capacity ledger → CanMakeConsole procs ledger place
        → IsLawful procs capacity (make_console place w ledger) }
{}

/// `write` keeps the ledger lawful.
pub fn lawful_after_write()
    ensures { (procs capacity : ℕ) (name : PageName) (offset : ℕ) (bytes : List ℕ) (ledger : Ledger)
        → IsLawful procs capacity ledger → CanWrite procs ledger name offset bytes
        → IsLawful procs capacity (write name offset bytes ledger) }
{}

/// `remove` keeps the ledger lawful.
pub fn lawful_after_remove()
    ensures { (procs capacity : ℕ) (places : Place → Bool) (ledger : Ledger)
        → IsLawful procs capacity ledger → CanRemove ledger places
        → IsLawful procs capacity (remove places ledger) }
{}

/// `reduce` keeps the ledger lawful.
pub fn lawful_after_reduce()
    ensures { (procs capacity : ℕ) (places : Place → Bool) (right : Right) (ledger : Ledger)
        → IsLawful procs capacity ledger → CanReduce ledger places right
        → IsLawful procs capacity (reduce places right ledger) }
{}

/// `lend` keeps the ledger lawful.
pub fn lawful_after_lend()
    ensures { (procs capacity : ℕ) (from : Place) (n : ℕ) (to : Place) (kind : LoanKind) (number : Number) (ledger : Ledger)
        → IsLawful procs capacity ledger → CanLend procs ledger from n to kind number
        → IsLawful procs capacity (lend from n to kind number ledger) }
{}

/// `end_loan` keeps the ledger lawful, whatever its number.
pub fn lawful_after_end()
    ensures { (procs capacity : ℕ) (number : Number) (ledger : Ledger) → IsLawful procs capacity ledger
        → IsLawful procs capacity (end_loan number ledger) }
{}

/// `pass` keeps the ledger lawful.
pub fn lawful_after_pass()
    ensures { (procs capacity : ℕ) (loan : LoanRun) (to : Place) (ledger : Ledger)
        → IsLawful procs capacity ledger → CanPass procs ledger loan to
        → IsLawful procs capacity (pass loan.number loan.holder to ledger) }
{}

/// `give` keeps the ledger lawful.
pub fn lawful_after_give()
    ensures { (procs capacity : ℕ) (from : Place) (n : ℕ) (to : Place) (ledger : Ledger)
        → IsLawful procs capacity ledger → CanGive procs ledger from n to
        → IsLawful procs capacity (give from n to ledger) }
{}

/// `orphan_loan` keeps the ledger lawful, whatever its number.
pub fn lawful_after_orphan()
    ensures { (procs capacity : ℕ) (number : Number) (ledger : Ledger) → IsLawful procs capacity ledger
        → IsLawful procs capacity (orphan_loan procs number ledger) }
{}

/// `forget` keeps the ledger lawful.
pub fn lawful_after_forget()
    ensures { (procs capacity : ℕ) (pid : Pid) (ledger : Ledger) → IsLawful procs capacity ledger
        → CanForget ledger pid → IsLawful procs capacity (forget pid ledger) }
{}

/// A lawful ledger is lawful after any list of steps, each under its condition.
pub fn lawful_after_all()
    ensures { (procs capacity : ℕ) (steps : List LedgerStep) (ledger : Ledger)
        → IsLawful procs capacity ledger → MayAll procs capacity steps ledger
        → IsLawful procs capacity (after_all procs steps ledger) }
{}
