//! The abstract machine: what its state is, and what each step does to it. The definitions stand in
//! `specs/`. The functions here are laws of them, and a few plain functions that meet them.
#![tactic(auto)]

mod end_laws;
mod kept_laws;
mod laws;
mod order;
mod refusals;
mod rows;
mod span_laws;

pub use end_laws::{
    close_leaves_no_loan, dead_server_closes, death_without_servers_forgets,
    each_number_means_its_call, every_number_has_its_call, kill_of_dead_does_nothing,
    loans_are_orphaned_one_at_a_time, loans_end_one_at_a_time, no_loan_ends, no_loan_is_orphaned,
    one_loan_ends, one_loan_is_orphaned, pick_of_unready_does_nothing, retry_ends_the_turn,
    servers_close_one_at_a_time, unclaimed_interrupt_does_nothing,
};
pub use kept_laws::{
    pick_keeps_matched, run_stays_matched, small_machine_is_matched, start_is_matched,
    turn_keeps_matched,
};
pub use laws::{
    arguments_are_given, next_ready_is_ready, no_step_without_actor, none_ready_without_next,
    other_registers_stay, records_carry_their_step, refusal_changes_caller_alone,
    refused_caller_goes_on, step_counts_one, timer_raises_once,
};
pub use order::next_ready;
pub use refusals::{first_refusal, refusal_words};
pub use rows::{
    deaths_are_answered, full_server_takes_no_message, interrupts_are_claimed_once,
    killed_server_answers_its_senders, lend_begins, map_window_ends, orphan_is_returned_once,
    page_is_lent_and_returned, pending_interrupts_are_a_set, scalars_are_answered_once,
    senderless_message_is_forgotten, sends_are_refused_in_order, stale_connection_leads_nowhere,
    waiting_thread_gets_the_message,
};
pub use span_laws::{loan_is_not_out_and_in, loan_is_out_or_in};
