//! What a reader of a transcript may rely on: laws of the records of steps and of histories, of whose turn it is, and of messages. Each
//! message is accepted once, delivered once for its send and once for each forward, ended once, and never lost. The definitions stand in
//! `specs/`; the functions have no code, and their contracts are the laws.
#![tactic(auto)]

mod accepted;
mod answered;
mod deliveries;
mod kinds;
mod pages;
mod record_order;
mod replies;
mod servers;
mod stuck;
mod turns;

pub use accepted::messages_are_accepted_once;
pub use answered::{calls_are_answered_once, standings_follow};
pub use deliveries::{messages_are_delivered_once, messages_follow, nothing_is_lost};
pub use kinds::served_calls_are_of_kinds;
pub use pages::pages_come_by_messages;
pub use record_order::{records_stand_in_order, steps_never_fall};
pub use replies::{calls_answer_who_waits, replies_are_due};
pub use servers::{
    messages_are_delivered_as_sent, messages_are_delivered_in_order, messages_have_one_server,
    messages_keep_their_order, senders_get_their_return, servers_do_one_thing,
};
pub use stuck::stuck_is_exactly_that;
pub use turns::{picks_can_starve, turns_are_fair};
