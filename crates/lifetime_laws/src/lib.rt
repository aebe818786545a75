//! What becomes of pages, connections and waits over whole histories: why a page is allocated and released, whose call connects, what a
//! process keeps that shares nothing, that a deadlock lasts, how soon a Ready thread goes on, and how soon a served client is answered.
//! The definitions stand in `specs/`; the functions have no code, and their contracts are the theorems.
#![tactic(auto)]

mod answers;
mod connections;
mod pages;
mod scheduling;
mod untouched;
mod waiting;

pub use answers::served_clients_are_answered;
pub use connections::connections_come_of_own_calls;
pub use pages::{
    only_stores_change_bytes, owners_change_by_moves, pages_add_up,
    pages_are_neither_lost_nor_doubled, wrong_kernels_are_refused,
};
pub use scheduling::{quiet_turns_are_kept, retries_can_starve, steps_are_fair};
pub use untouched::processes_apart_are_untouched;
pub use waiting::deadlocks_last;
