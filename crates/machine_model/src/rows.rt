//! Worked rows of the machine: what is told of calls and events on small machines.

ghost use Rattle.std.specs.Prelude.{◌≡◌};
ghost use Rattle.machine_model.specs.Worked.LendRows.{lend_begin, lend_begin_told, lend_row, lend_told, orphan_row, orphan_told};
ghost use Rattle.machine_model.specs.Worked.LendRows.{refusal_row, refusal_told};
ghost use Rattle.machine_model.specs.Worked.MapRows.{map_row, map_told};
ghost use Rattle.machine_model.specs.Worked.Rows.{small_machine, told_all, after_all};
ghost use Rattle.machine_model.specs.Worked.ServerRows.{pending_row, pending_told, scalar_row, scalar_told, waiting_row, waiting_told};
ghost use Rattle.machine_model.specs.Worked.ServerRows.{stale_row, stale_told, senderless_row, senderless_told, kill_row, kill_told};
ghost use Rattle.machine_model.specs.Worked.ServerRows.{full_row, full_told, interrupt_row, interrupt_told, death_row, death_told};

/// An interrupt that is raised while its handler runs is delivered once more, however often.
#[tactic(auto, using(crate::proofs::State::RowLemmas::pending_is_a_set))]
pub fn pending_interrupts_are_a_set()
    ensures { told_all pending_row (small_machine 1) ≡ pending_told }
{}

/// A blocking scalar is answered once.
#[tactic(auto, using(crate::proofs::State::RowLemmas::scalars_answered))]
pub fn scalars_are_answered_once()
    ensures { told_all scalar_row (small_machine 2) ≡ scalar_told }
{}

/// A thread that waits at a server gets a message in the step of its send.
#[tactic(auto, using(crate::proofs::State::RowLemmas::waiting_got))]
pub fn waiting_thread_gets_the_message()
    ensures { told_all waiting_row (small_machine 2) ≡ waiting_told }
{}

/// A connection to a dead server leads to no other.
#[tactic(auto, using(crate::proofs::State::RowLemmas::stale_connection))]
pub fn stale_connection_leads_nowhere()
    ensures { told_all stale_row (small_machine 3) ≡ stale_told }
{}

/// A message whose sender died is answered to nobody.
#[tactic(auto, using(crate::proofs::State::RowLemmas::senderless_forgotten))]
pub fn senderless_message_is_forgotten()
    ensures { told_all senderless_row (small_machine 2) ≡ senderless_told }
{}

/// Who waits on a server of a dying process is answered in ascending order, then the process is gone.
#[tactic(auto, using(crate::proofs::State::RowLemmas::server_killed))]
pub fn killed_server_answers_its_senders()
    ensures { told_all kill_row (small_machine 3) ≡ kill_told }
{}

/// A server takes 128 messages.
#[tactic(auto, using(crate::proofs::State::RowLemmas::server_full))]
pub fn full_server_takes_no_message()
    ensures { told_all full_row (small_machine 2) ≡ full_told }
{}

/// Interrupts are claimed once, and freed by who claimed them.
#[tactic(auto, using(crate::proofs::State::RowLemmas::interrupts_claimed))]
pub fn interrupts_are_claimed_once()
    ensures { told_all interrupt_row (small_machine 2) ≡ interrupt_told }
{}

/// The scalar of a dead sender is returned once, and who waits at a destroyed server is answered.
#[tactic(auto, using(crate::proofs::State::RowLemmas::deaths_answered))]
pub fn deaths_are_answered()
    ensures { told_all death_row (small_machine 2) ≡ death_told }
{}

/// Pages are mapped up to the end of the Map window.
#[tactic(auto, using(crate::proofs::Calling::MapRowLemmas::map_ends))]
pub fn map_window_ends()
    ensures { told_all map_row (small_machine 1) ≡ map_told }
{}

/// What is told before a page is lent.
#[tactic(auto, using(crate::proofs::Messaging::LendRowLemmas::begun))]
pub fn lend_begins()
    ensures { told_all lend_begin (small_machine 2) ≡ lend_begin_told }
{}

/// A lent page stands at the receiver's first free place, and is returned once, by its own range.
#[tactic(auto, using(crate::proofs::Messaging::LendRowLemmas::lent_and_returned))]
pub fn page_is_lent_and_returned()
    ensures { told_all lend_row (after_all lend_begin (small_machine 2)) ≡ lend_told }
{}

/// A page on loan is sent by neither side, also where it is an orphan; an orphan is returned once.
#[tactic(auto, using(crate::proofs::Messaging::LendRowLemmas::orphan_returned))]
pub fn orphan_is_returned_once()
    ensures { told_all orphan_row (after_all lend_begin (small_machine 2)) ≡ orphan_told }
{}

/// Sends are refused by the first test that holds.
#[tactic(auto, using(crate::proofs::Messaging::LendRowLemmas::sends_refused))]
pub fn sends_are_refused_in_order()
    ensures { told_all refusal_row (after_all lend_begin (small_machine 2)) ≡ refusal_told }
{}
