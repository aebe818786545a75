//! Free orders, in which events come also where they do nothing, and equal ones in any order of their numbers: they are orders. The
//! definitions stand in `specs/`; the functions have no code, and their contracts are the laws.

ghost use Rattle.order_model.specs.Freely.{FreeOrdersAreOrders, FreeOrdersAreTold, IdleEventsDoNothing};

/// **An idle event does nothing.** It leaves the state as it is, and no record.
#[tactic(auto, using(crate::proofs::Moving::IdleLemmas::idle_events_do_nothing))]
pub fn idle_events_do_nothing()
    ensures { IdleEventsDoNothing }
{}

/// **Free orders are orders.** Where a free order leads, an order that is no longer leads, to the same state with the same console and
/// exits, and as many slices were preempted.
#[tactic(auto, using(crate::proofs::Moving::FreeLemmas::free_orders_are_orders))]
pub fn free_orders_are_orders()
    ensures { FreeOrdersAreOrders }
{}

/// **A whole search leaves no free order out.** The node of a point like the one where it leads is told, with its note.
#[tactic(auto, using(crate::proofs::Moving::FreeLemmas::free_orders_are_told))]
pub fn free_orders_are_told()
    ensures { FreeOrdersAreTold }
{}
