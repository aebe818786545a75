//! Laws of the loan of a number in one state.

ghost use Rattle.std.specs.Prelude.{◌⊎◌};
ghost use Rattle.xk_base.specs.declared.ids.Number.{Number};
ghost use Rattle.ledger_model.specs.Loans.{LoanRun};
ghost use Rattle.machine_model.specs.Runs.LoanSpan.{IsIn, IsOut};
ghost use Rattle.machine_model.specs.Runs.Matched.{Matched};
ghost use Rattle.machine_model.specs.State.Machine.{Machine};

/// In a matched state the loan of a number is out, or no loan and no orphan has the number.
#[tactic(auto, using(crate::proofs::Runs::SpanLemmas::out_or_in))]
pub fn loan_is_out_or_in()
    ensures { (m : Machine) (number : Number) → Matched m → IsIn number m ⊎ ((loan : LoanRun) × IsOut number m loan) }
{}

/// It is never both.
#[tactic(auto, using(crate::proofs::Runs::SpanLemmas::not_both))]
pub fn loan_is_not_out_and_in()
    ensures { (m : Machine) (number : Number) (loan : LoanRun) → IsIn number m → IsOut number m loan → ⊥ }
{}
