//! Worked rows of loans and moves, played by steps.

ghost use Rattle.std.specs.Prelude.{None, ◌≡◌};
ghost use Rattle.xk_base.specs.UserMemory.{number_at};
ghost use Rattle.xk_base.specs.Numbers.Windows.{page_of};
ghost use Rattle.xk_base.specs.declared.pages.Width.TheVariants.{Word};
ghost use Rattle.machine_model.specs.State.Views.{memory_of};
ghost use Rattle.machine_model.specs.Worked.Rows.{pid_of};
ghost use Rattle.worked_examples.specs.Loans.{fault_row, move_row, after_move, return_row, after_return};
ghost use Rattle.worked_examples.specs.Playing.{IsToldAs, coded_machine};

/// A lent page that was returned can be written by its lender as before the loan.
#[tactic(auto, using(crate::proofs::Loans::LoanRowLemmas::returned_row, crate::proofs::Loans::LoanRowLemmas::word_after))]
pub fn returned_page_is_written()
    ensures told { IsToldAs return_row (coded_machine 2) }
    ensures word { number_at (memory_of after_return (pid_of 3)).byte 0x2000_0000 Word ≡ 0x5566_7788 }
{}

/// A store by another thread of the lender during the loan is a page fault, and ends the process.
#[tactic(auto, using(crate::proofs::Loans::LoanRowLemmas::store_faults))]
pub fn lent_page_is_not_written_by_its_lender()
    ensures { IsToldAs fault_row (coded_machine 2) }
{}

/// A moved page leaves its sender, and stands at the receiver with its bytes and its right.
#[tactic(auto, using(crate::proofs::Loans::LoanRowLemmas::moved_page_rules))]
pub fn moved_page_is_the_receivers()
    ensures told { IsToldAs move_row (coded_machine 2) }
    ensures came { number_at (memory_of after_move (pid_of 2)).byte 0x4000_0000 Word ≡ 0x1122_3344 }
    ensures stored { number_at (memory_of after_move (pid_of 2)).byte 0x4000_0004 Word ≡ 0x5566_7788 }
    ensures left { after_move.ledger.home (page_of (pid_of 3) 0x2000_0000) ≡ None }
{}
