//! Worked rows of lent pages.

ghost use Rattle.std.specs.Prelude.{◌≡◌, ℕ, false, List};
ghost use Rattle.xk_base.specs.declared.pages.Width.TheVariants.{Word};
ghost use Rattle.ledger_model.specs.RunTests.{any_on_loan};
ghost use Rattle.machine_model.specs.Hart.Instructions.{loads, stores, writes, following, Stores, Traps, store_page_fault, load_page_fault};
ghost use Rattle.machine_model.specs.Worked.Rows.{small_machine, told_all, after_all, pid_of};
ghost use Rattle.machine_model.specs.State.Views.{memory_of};
ghost use Rattle.xk_base.specs.Numbers.Windows.{page_of};
ghost use Rattle.worked_examples.specs.AllOrNothing.{four_pages_begin, four_pages_begin_told, four_pages_refused, four_pages_refused_told};
ghost use Rattle.worked_examples.specs.AllOrNothing.{after_refusal, three_pages_row, three_pages_told};
ghost use Rattle.worked_examples.specs.OwnServer.{own_server_begin, own_server_begin_told, own_server_written, own_server_send};
ghost use Rattle.worked_examples.specs.OwnServer.{own_server_send_told, own_server_lent, own_server_return, own_server_return_told};
ghost use Rattle.worked_examples.specs.OwnServer.{own_server_returned};
ghost use Rattle.worked_examples.specs.ReadOnly.{read_only_written, read_only_reduce, read_only_reduce_told, read_only_reduced};
ghost use Rattle.worked_examples.specs.ReadOnly.{read_only_row};
ghost use Rattle.worked_examples.specs.ReadOnly.{read_only_told, read_only_lent, read_only_returned};
ghost use Rattle.worked_examples.specs.TwoPages.{two_pages_begin, two_pages_begin_told, two_pages_send, two_pages_send_told};
ghost use Rattle.worked_examples.specs.TwoPages.{two_pages_lent};
ghost use Rattle.worked_examples.specs.TwoPages.{first_written, both_written, two_pages_return, two_pages_return_told, two_pages_returned};

/// Read-only page. `3.2` stores a word in the page of its heap, gives up W there and lends it, and the server loads the word.
/// The return gives back the right that the page had: `3.2` loads the word, and a store there traps with cause 15, as it does
/// during the loan. What is told before the store is that of the row of a lend in `machine_model`.
#[tactic(auto, using(crate::proofs::Loans::ReadOnlyLemmas::read_only_rules))]
pub fn read_only_page_is_lent()
    ensures reduces { told_all read_only_reduce read_only_written ≡ read_only_reduce_told }
    ensures lends { told_all read_only_row read_only_reduced ≡ read_only_told }
    ensures load_during { (regs : List ℕ) (pc rd : ℕ) → loads (memory_of read_only_lent (pid_of 2)) regs pc rd 0x4000_0000 Word (λ v. v)
        ≡ writes regs pc rd 0x1122_3344 }
    ensures store_during { (regs : List ℕ) (pc value : ℕ) → stores (memory_of read_only_lent (pid_of 3)) regs pc 0x2000_0000 Word value
        ≡ Traps store_page_fault 0x2000_0000 }
    ensures load_after { (regs : List ℕ) (pc rd : ℕ) → loads (memory_of read_only_returned (pid_of 3)) regs pc rd 0x2000_0000 Word (λ v. v)
        ≡ writes regs pc rd 0x1122_3344 }
    ensures store_after { (regs : List ℕ) (pc value : ℕ) → stores (memory_of read_only_returned (pid_of 3)) regs pc 0x2000_0000 Word value
        ≡ Traps store_page_fault 0x2000_0000 }
{}

/// Mutable lend of two pages. `3.2` lends both pages of its heap. `2.2` may store to both at its own addresses, stores a word in
/// each and returns them with offset 7 and valid 9. `3.2` gets the two numbers, and loads the server's words.
#[tactic(auto, using(crate::proofs::Loans::TwoPageLemmas::two_page_rules))]
pub fn two_pages_are_lent_mutably()
    ensures begins { told_all two_pages_begin (small_machine 2) ≡ two_pages_begin_told }
    ensures sends { told_all two_pages_send (after_all two_pages_begin (small_machine 2)) ≡ two_pages_send_told }
    ensures first_store { (regs : List ℕ) (pc value : ℕ) → stores (memory_of two_pages_lent (pid_of 2)) regs pc 0x4000_0000 Word value
        ≡ Stores 0x4000_0000 Word value regs (following pc) }
    ensures second_store { (regs : List ℕ) (pc value : ℕ) → stores (memory_of first_written (pid_of 2)) regs pc 0x4000_1000 Word value
        ≡ Stores 0x4000_1000 Word value regs (following pc) }
    ensures returns { told_all two_pages_return both_written ≡ two_pages_return_told }
    ensures first_load { (regs : List ℕ) (pc rd : ℕ) → loads (memory_of two_pages_returned (pid_of 3)) regs pc rd 0x2000_0000 Word (λ v. v)
        ≡ writes regs pc rd 0x1122_3344 }
    ensures second_load { (regs : List ℕ) (pc rd : ℕ) → loads (memory_of two_pages_returned (pid_of 3)) regs pc rd 0x2000_1000 Word (λ v. v)
        ≡ writes regs pc rd 0x5566_7788 }
{}

/// Own server. `2.3` waits at a server of its own process, and `2.2` lends it the page of its heap. During the loan a load at the
/// receiver's address and one at the lender's give the word that was stored before; after the return there is no page at the
/// receiver's address, and a load there traps with cause 13.
#[tactic(auto, using(crate::proofs::OwnServerLemmas::own_server_rules))]
pub fn page_is_lent_to_an_own_server()
    ensures begins { told_all own_server_begin (small_machine 2) ≡ own_server_begin_told }
    ensures sends { told_all own_server_send own_server_written ≡ own_server_send_told }
    ensures at_lender { (regs : List ℕ) (pc rd : ℕ) → loads (memory_of own_server_lent (pid_of 2)) regs pc rd 0x2000_0000 Word (λ v. v)
        ≡ writes regs pc rd 0x1122_3344 }
    ensures at_holder { (regs : List ℕ) (pc rd : ℕ) → loads (memory_of own_server_lent (pid_of 2)) regs pc rd 0x4000_0000 Word (λ v. v)
        ≡ writes regs pc rd 0x1122_3344 }
    ensures returns { told_all own_server_return own_server_lent ≡ own_server_return_told }
    ensures at_lender_after { (regs : List ℕ) (pc rd : ℕ) → loads (memory_of own_server_returned (pid_of 2)) regs pc rd 0x2000_0000 Word
        (λ v. v) ≡ writes regs pc rd 0x1122_3344 }
    ensures at_holder_after { (regs : List ℕ) (pc rd : ℕ) → loads (memory_of own_server_returned (pid_of 2)) regs pc rd 0x4000_0000 Word
        (λ v. v) ≡ Traps load_page_fault 0x4000_0000 }
{}

/// All or nothing. `3.3` lends the last of four pages, and `2.2` holds it. `3.2` sends all four and is refused with
/// ShareViolation, and none of the other three is on loan. They are then accepted as message 2, and stand behind the first at
/// the receiver.
#[tactic(auto, using(crate::proofs::AllOrNothingLemmas::all_or_nothing_rules))]
pub fn all_pages_are_lent_or_none()
    ensures begins { told_all four_pages_begin (small_machine 2) ≡ four_pages_begin_told }
    ensures refused { told_all four_pages_refused (after_all four_pages_begin (small_machine 2)) ≡ four_pages_refused_told }
    ensures none_lent { any_on_loan 2 after_refusal.ledger (page_of (pid_of 3) 0x2000_0000) 3 ≡ false }
    ensures sends { told_all three_pages_row after_refusal ≡ three_pages_told }
{}
