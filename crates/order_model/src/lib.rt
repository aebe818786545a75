//! Orders of the threads in slices: the nodes of a search of orders, what of a state the later slices of its threads depend on, what is
//! seen of an ending, and what may come next. The definitions stand in `specs/`; a function without code is a law.
#![tactic(auto)]

mod choices;
mod coming;
mod exits;
mod failing;
mod freely;
mod moves;
mod nodes;
mod orders;
mod sights;
mod slices;
mod turns;

pub use choices::{Choice, Sight, Unseen, add_preemptions, see};
pub use exits::{Ended, Exit, exit_in, push_ends};
pub use failing::{Failing, Waiter, fails, first_failing};
pub use freely::{free_orders_are_orders, free_orders_are_told, idle_events_do_nothing};
pub use moves::{Move, Note};
pub use nodes::{
    few_preemptions_are_allowed, nodes_are_seen_alike, nodes_lead_alike, orders_are_paths,
    orders_are_played, orders_are_told, paths_are_orders, preemptions_are_counted,
    slice_forgets_the_count, step_forgets_the_count, told_are_orders,
};
pub use orders::{Orders, Trail};
pub use sights::Sights;
pub use slices::{
    interleavings_are_orders, order_is_played, slice_forgets_the_turn, slice_is_played,
};
pub use turns::{has_timer, ready_ids};
