//! Interrupts and the timer over runs of the abstract machine: what an event `irq` starts, that no number is delivered more often than it
//! is raised, what a raise of the timer is, and who stores in its page. The theorems are `interrupts_are_delivered_once` and
//! `timer_raises_at_its_step` of `laws`.
#![tactic(auto)]

mod timer;

pub use timer::{nothing_else_is_done, only_the_claimant_stores, raise_is_an_event};
