//! Worked rows on small machines: what is told of calls, what then stands in memory, and who may reach it.
//! The functions are laws of the abstract machine.
#![tactic(auto)]

mod death_rows;
mod forward_rows;
mod interrupt_rows;
mod loan_rows;
mod rows;
mod scalar_rows;

pub use death_rows::{
    destroyed_server_gives_back_its_loans, killed_server_gives_back_its_loans,
    orphan_is_written_by_its_holder, queued_message_goes_with_its_sender,
};
pub use forward_rows::{
    forwards_are_refused_in_order, lend_is_passed_on, lend_is_passed_on_and_back,
    passed_lend_outlives_who_passed_it,
};
pub use interrupt_rows::pending_is_a_set;
pub use loan_rows::{
    lent_page_is_not_written_by_its_lender, moved_page_is_the_receivers, returned_page_is_written,
};
pub use rows::{
    all_pages_are_lent_or_none, page_is_lent_to_an_own_server, read_only_page_is_lent,
    two_pages_are_lent_mutably,
};
pub use scalar_rows::{
    held_message_keeps_its_slot, least_tid_gets_the_message, scalar_is_answered_by_two_values,
};
