//! The laws over the kernel and over calls of the program: what two calls have in common, and what every run keeps. A function here does
//! nothing; its contract is a law.
#![tactic(auto)]

mod converted;
mod exchanged;
mod matched;
mod resumed;
mod saying;
mod services;
mod splits;
mod starting;
mod starts;
mod trust;
mod unwinding;

pub use converted::converted_image_boots_the_same;
pub use exchanged::exchanged_calls_end_alike;
pub use matched::{booted_machine_is_matched, every_state_is_matched};
pub use resumed::{
    begun_run_goes_on, resumed_run_goes_on, runs_begin, suspended_calls_end_as_one,
    suspended_state_is_read,
};
pub use saying::{files_say_one_thing, some_steps_are_a_front, uninterrupted_calls_are_complete};
pub use services::{exchanged_services_tell_alike, exchanged_starts_are_alike};
pub use splits::{ram_is_not_loaded, split_calls_end_alike, swapping_is_invisible};
pub use starting::{beginnings_are_spellable, every_state_is_spellable};
pub use starts::{start_has_the_planned_pages, start_is_not_reserved, start_of_a_plan_is_matched};
pub use trust::{near_pages_are_known, trusted_store_stays_trusted};
pub use unwinding::{secret_sums_write_alike, unwound_services_tell_alike};
