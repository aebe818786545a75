//! Laws of the abstract machine over whole steps and events: each keeps the invariant. Then what a list of events makes of a machine: its
//! history up to the step limit, and the moments that it goes through. The functions have no code; their contracts are the laws.
#![tactic(auto)]

mod events;
mod moments;
mod step_laws;

pub use events::{
    events_are_played_in_order, events_without_steps_are_played, histories_follow_each_other,
    idle_tick_ends_the_turn, no_events_do_nothing, nothing_follows_the_limit,
    records_are_only_added, steps_equal_the_limit_met, steps_stay_within_the_limit,
    tick_does_one_step_after_another, tick_meets_the_limit, tick_zero_ends_the_turn,
    unready_thread_is_not_picked,
};
pub use moments::{
    history_is_a_run, moments_follow_each_other, moments_keep_the_cursor,
    records_are_of_the_moments, run_ends_in_the_last_state,
};
pub use step_laws::{all_keep_cursor, all_keep_matched, calls_keep_matched, step_keeps_matched};
