//! The loan of a number in one ledger, and in two that have the same pages and orphans of it.

ghost use Rattle.std.specs.Prelude.{◌≡◌};
ghost use Rattle.xk_base.specs.declared.ids.Number.{Number};
ghost use Rattle.ledger_model.specs.Loans.{LoanRun};
ghost use Rattle.machine_model.specs.Runs.LoanSpan.{IsOut};
ghost use Rattle.machine_model.specs.State.Machine.{Machine};
ghost use Rattle.loan_laws.specs.Leaving.{Leaves};

/// A number has one loan in one state.
pub fn number_has_one_loan()
    ensures { (m : Machine) (number : Number) (a b : LoanRun) → IsOut number m a → IsOut number m b → a ≡ b }
{}

/// Where the pages and orphans of a number are left, its loan stands as before.
pub fn left_number_keeps_its_loan()
    ensures { (number : Number) (m n : Machine) (loan : LoanRun) → Leaves number m.ledger n.ledger → IsOut number m loan
        → IsOut number n loan }
{}
