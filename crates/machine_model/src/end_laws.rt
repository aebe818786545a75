//! Laws of calls, of servers that end, and of events.

ghost use Rattle.std.specs.Prelude.{ℕ, ◌≡◌, ◌<◌, ◌==◌, ◌||◌, Bool, true, false, List, None, Some, map};
ghost use Rattle.std.specs.List.{AllByRecursion, list_any};
ghost use Rattle.syscall_codec.specs.CallNumbers.{call_numbers};
ghost use Rattle.xk_base.specs.declared.ids.Number.{Number};
ghost use Rattle.xk_base.specs.declared.ids.Pid.{Pid};
ghost use Rattle.xk_base.specs.declared.ids.Serial.{Serial};
ghost use Rattle.xk_base.specs.declared.ids.ThreadId.{ThreadId};
ghost use Rattle.ledger_model.specs.Lawful.{IsLawful};
ghost use Rattle.ledger_model.specs.Ledger.{Ledger};
ghost use Rattle.ledger_model.specs.Loans.{IsFresh, loans, same_number};
ghost use Rattle.ledger_model.specs.Steps.{end_loan, orphan_loan};
ghost use Rattle.machine_model.specs.Calling.Calls.{call_at, call_table};
ghost use Rattle.machine_model.specs.Calling.Questions.{asked, questions};
ghost use Rattle.machine_model.specs.State.Changes.{Retried, call_settled, only};
ghost use Rattle.machine_model.specs.Ending.Closing.{close, closed};
ghost use Rattle.machine_model.specs.Ending.Ends.{death, forgotten};
ghost use Rattle.machine_model.specs.Stepping.Events.{picked, raised, killed, nothing};
ghost use Rattle.machine_model.specs.Stepping.Reservations.{unreserved};
ghost use Rattle.machine_model.specs.Messaging.LoanSets.{end_loans, orphan_loans};
ghost use Rattle.machine_model.specs.Calling.InterruptCalls.{claim_call, free_call};
ghost use Rattle.machine_model.specs.State.Machine.{Machine, Server};
ghost use Rattle.machine_model.specs.Calling.MemoryCalls.{map_call, unmap_call, update_call, increase_call, decrease_call};
ghost use Rattle.machine_model.specs.Messaging.ForwardCalls.{forward_call};
ghost use Rattle.machine_model.specs.Messaging.Messages.{is_of_number};
ghost use Rattle.machine_model.specs.State.Order.{ready_at, turn};
ghost use Rattle.machine_model.specs.Messaging.ReceiveCalls.{receive_call, try_receive_call};
ghost use Rattle.machine_model.specs.Messaging.ReturnCalls.{return_memory_call, return_scalar1_call, return_scalar2_call};
ghost use Rattle.machine_model.specs.Messaging.SendCalls.{send_call, try_send_call};
ghost use Rattle.machine_model.specs.Calling.ServerCalls.{create_server_call, connect_call, try_connect_call, destroy_call};
ghost use Rattle.machine_model.specs.State.Servers.{messages_of};
ghost use Rattle.machine_model.specs.Calling.ThreadCalls.{yield_call, create_call, join_call, terminate_call};
ghost use Rattle.machine_model.specs.State.Threads.{both_answers};

/// Every number of a call has its row in the table, in the order of the numbers.
#[tactic(auto, using(crate::proofs::Ending::ClosingLemmas::every_number))]
pub fn every_number_has_its_call()
    ensures { map (λ row. row.0) call_table ≡ call_numbers }
{}

/// What each number of a call means.
pub fn each_number_means_its_call()
    ensures map_call { (m : Machine) (w : List ℕ) → call_at 2 call_table m w ≡ map_call m w }
    ensures yield_call { (m : Machine) (w : List ℕ) → call_at 3 call_table m w ≡ yield_call m w }
    ensures claim_call { (m : Machine) (w : List ℕ) → call_at 5 call_table m w ≡ claim_call m w }
    ensures free_call { (m : Machine) (w : List ℕ) → call_at 6 call_table m w ≡ free_call m w }
    ensures increase_call { (m : Machine) (w : List ℕ) → call_at 10 call_table m w ≡ increase_call m w }
    ensures decrease_call { (m : Machine) (w : List ℕ) → call_at 11 call_table m w ≡ decrease_call m w }
    ensures update_call { (m : Machine) (w : List ℕ) → call_at 12 call_table m w ≡ update_call m w }
    ensures create_server_call { (m : Machine) (w : List ℕ) → call_at 14 call_table m w ≡ create_server_call m w }
    ensures receive_call { (m : Machine) (w : List ℕ) → call_at 15 call_table m w ≡ receive_call m w }
    ensures send_call { (m : Machine) (w : List ℕ) → call_at 16 call_table m w ≡ send_call m w }
    ensures connect_call { (m : Machine) (w : List ℕ) → call_at 17 call_table m w ≡ connect_call m w }
    ensures create_call { (m : Machine) (w : List ℕ) → call_at 18 call_table m w ≡ create_call m w }
    ensures unmap_call { (m : Machine) (w : List ℕ) → call_at 19 call_table m w ≡ unmap_call m w }
    ensures return_memory_call { (m : Machine) (w : List ℕ) → call_at 20 call_table m w ≡ return_memory_call m w }
    ensures terminate_call { (m : Machine) (w : List ℕ) → call_at 22 call_table m w ≡ terminate_call m w }
    ensures try_send_call { (m : Machine) (w : List ℕ) → call_at 24 call_table m w ≡ try_send_call m w }
    ensures try_connect_call { (m : Machine) (w : List ℕ) → call_at 25 call_table m w ≡ try_connect_call m w }
    ensures return_scalar1_call { (m : Machine) (w : List ℕ) → call_at 26 call_table m w ≡ return_scalar1_call m w }
    ensures return_scalar2_call { (m : Machine) (w : List ℕ) → call_at 27 call_table m w ≡ return_scalar2_call m w }
    ensures try_receive_call { (m : Machine) (w : List ℕ) → call_at 28 call_table m w ≡ try_receive_call m w }
    ensures join_call { (m : Machine) (w : List ℕ) → call_at 36 call_table m w ≡ join_call m w }
    ensures destroy_call { (m : Machine) (w : List ℕ) → call_at 41 call_table m w ≡ destroy_call m w }
    ensures questions { AllByRecursion (λ row. (m : Machine) (w : List ℕ) → call_at row.0 call_table m w ≡ asked row.1 m w) questions }
    ensures forward_call { (m : Machine) (w : List ℕ) → call_at 44 call_table m w ≡ forward_call m w }
{}

/// A retry ends the turn and changes nothing else.
#[tactic(auto, using(crate::proofs::Ending::ClosingLemmas::retry_turns))]
pub fn retry_ends_the_turn()
    ensures { (m : Machine) → (call_settled m Retried).machine ≡ turn m }
{}

/// The loans of a set of messages end one at a time.
#[tactic(auto, using(crate::proofs::Messaging::LoanSetLemmas::one_more_ends))]
pub fn loans_end_one_at_a_time()
    ensures { (ends : Number → Bool) (number : Number) (l : Ledger)
        → end_loan number (end_loans ends l) ≡ end_loans (λ n. ends n || same_number n number) l }
{}

/// Where no number is in the set, no loan ends.
#[tactic(auto, using(crate::proofs::Messaging::LoanSetLemmas::none_ends))]
pub fn no_loan_ends()
    ensures { (ends : Number → Bool) → ((n : Number) → ends n ≡ false) → (l : Ledger) → end_loans ends l ≡ l }
{}

/// For one number it is the step `end`.
#[tactic(auto, using(crate::proofs::Messaging::LoanSetLemmas::only_one_ends))]
pub fn one_loan_ends()
    ensures { (number : Number) (l : Ledger) → end_loans (λ n. same_number n number) l ≡ end_loan number l }
{}

/// For one number it is the step `orphan`.
#[tactic(auto, using(crate::proofs::Messaging::LoanSetLemmas::only_one_is_orphaned))]
pub fn one_loan_is_orphaned()
    ensures { (procs : ℕ) (number : Number) (l : Ledger) → orphan_loans procs (λ n. same_number n number) l ≡ orphan_loan procs number l }
{}

/// The loans of a set of messages become orphans one at a time.
pub fn loans_are_orphaned_one_at_a_time()
    ensures { (procs capacity : ℕ) (goes : Number → Bool) (number : Number) (l : Ledger) → IsLawful procs capacity l
        → orphan_loan procs number (orphan_loans procs goes l) ≡ orphan_loans procs (λ n. goes n || same_number n number) l }
{}

/// Where no number is in the set, no loan becomes an orphan.
#[tactic(auto, using(crate::proofs::Ending::DeathLemmas::none_is_orphaned))]
pub fn no_loan_is_orphaned()
    ensures { (procs : ℕ) (goes : Number → Bool) → ((n : Number) → goes n ≡ false) → (l : Ledger) → orphan_loans procs goes l ≡ l }
{}

/// Servers close one at a time: what is left, and who is answered.
#[tactic(auto, using(crate::proofs::Ending::CloseManyLemmas::one_more_closes, crate::proofs::Ending::CloseManyLemmas::one_more_is_told))]
pub fn servers_close_one_at_a_time()
    ensures left { (which : ℕ → Bool) (s : Serial) (m : Machine)
        → (closed (λ n. which n || (n == s.0)) m).machine ≡ (close s (closed which m).machine).machine }
    ensures told { (which : ℕ → Bool) (s : Serial) (m : Machine)
        → (closed (λ n. which n || (n == s.0)) m).answers
        ≡ both_answers (closed which m).answers (close s (closed which m).machine).answers }
{}

/// Closing a server leaves no loan and no orphan of its messages, queued or held.
#[tactic(auto, using(crate::proofs::Ending::CloseManyLemmas::close_frees))]
pub fn close_leaves_no_loan()
    ensures { (m : Machine) (s : Serial) (server : Server) (number : Number) → m.servers s.0 ≡ Some server → s.0 < m.next_serial
        → list_any (is_of_number number) (messages_of server) ≡ true → IsFresh (loans (close s m).machine.ledger) number }
{}

/// Closing a server that isn't alive changes nothing and answers nobody.
#[tactic(auto, using(crate::proofs::Ending::ClosingLemmas::dead_server_closes))]
pub fn dead_server_closes()
    ensures { (m : Machine) (serial : Serial) → m.servers serial.0 ≡ None → close serial m ≡ only m }
{}

/// The death of a process where there is no server: it is forgotten, and nobody is answered.
#[tactic(auto, using(crate::proofs::Ending::DeathLemmas::death_without_servers))]
pub fn death_without_servers_forgets()
    ensures { (m : Machine) → ((n : ℕ) → m.servers n ≡ None) → (pid : Pid)
        → death pid m ≡ record (only (forgotten pid m)) { gone = Some pid } }
{}

/// A thread that isn't Ready can't be picked.
#[tactic(auto, using(crate::proofs::Ending::ClosingLemmas::pick_of_unready))]
pub fn pick_of_unready_does_nothing()
    ensures { (m : Machine) (who : ThreadId) → ready_at m who ≡ false → picked who m ≡ nothing m }
{}

/// An interrupt that nobody claimed ends a reservation and does nothing else.
#[tactic(auto, using(crate::proofs::Ending::ClosingLemmas::irq_unclaimed))]
pub fn unclaimed_interrupt_does_nothing()
    ensures { (m : Machine) (k : ℕ) → m.claims k ≡ None → raised k m ≡ nothing (unreserved m) }
{}

/// What isn't a living process can't be killed: that ends a reservation and does nothing else.
#[tactic(auto, using(crate::proofs::Ending::ClosingLemmas::kill_of_dead))]
pub fn kill_of_dead_does_nothing()
    ensures { (m : Machine) (pid : Pid) → (m.process pid.0).alive ≡ false → killed pid m ≡ nothing (unreserved m) }
{}
