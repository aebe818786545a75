//! Nodes of a search of orders: what of a state the later slices of its threads depend on, and what is seen of an ending. The
//! definitions stand in `specs/`; the functions have no code, and their contracts are the laws.

ghost use Rattle.order_model.specs.Counts.{SliceForgetsCount, StepForgetsCount};
ghost use Rattle.order_model.specs.Endings.{NodesAreSeenAlike};
ghost use Rattle.order_model.specs.Nodes.{NodesLeadAlike};
ghost use Rattle.order_model.specs.Orders.{FewPreemptionsAreAllowed, OrdersArePaths, OrdersArePlayed, PreemptionsAreCounted};
ghost use Rattle.order_model.specs.Searches.{OrdersAreTold, PathsAreOrders, ToldAreOrders};

/// **A step forgets the count.** Where nobody has claimed the timer's interrupt, a step from the same state with another count of steps
/// does the same, but for the number in its records and the new count.
#[tactic(auto, using(crate::proofs::Counting::StepLemmas::step_forgets))]
pub fn step_forgets_the_count()
    ensures { StepForgetsCount }
{}

/// **So does a slice.**
#[tactic(auto, using(crate::proofs::Counting::SliceLemmas::slice_forgets))]
pub fn slice_forgets_the_count()
    ensures { SliceForgetsCount }
{}

/// **Points of one node have the same moves**, and these lead to points of one node: as long as nobody has claimed the timer's
/// interrupt, or the orders have a bound of steps.
#[tactic(auto, using(crate::proofs::Moving::NodeLemmas::nodes_lead_alike))]
pub fn nodes_lead_alike()
    ensures { NodesLeadAlike }
{}

/// **Each order is played by its events**, where the limit allows its steps.
#[tactic(auto, using(crate::proofs::Moving::PlayLemmas::orders_are_played))]
pub fn orders_are_played()
    ensures { OrdersArePlayed }
{}

/// **Preemptions are counted.** An order preempts as many slices as its point tells, and no more than are asked for.
#[tactic(auto, using(crate::proofs::Moving::CountLemmas::preemptions_are_counted))]
pub fn preemptions_are_counted()
    ensures { PreemptionsAreCounted }
{}

/// **Few preemptions are allowed.** An order with no more preempted slices than are asked for is among the orders that are asked for,
/// if it is among those with any count of them.
#[tactic(auto, using(crate::proofs::Moving::CountLemmas::few_preemptions_are_allowed))]
pub fn few_preemptions_are_allowed()
    ensures { FewPreemptionsAreAllowed }
{}

/// **Each order is a path of nodes**, and leads from the node of a point to that of the point where it leads.
#[tactic(auto, using(crate::proofs::Moving::PathLemmas::orders_are_paths))]
pub fn orders_are_paths()
    ensures { OrdersArePaths }
{}

/// **All points of a node are seen alike**: the bytes of the console, what the threads of living processes are about, and what the others
/// ended with. They fail alike, end orders alike, and have the same slices.
pub fn nodes_are_seen_alike()
    ensures { NodesAreSeenAlike }
{}

/// **Each path of nodes is an order**, and leads to a point of the node to which it leads.
pub fn paths_are_orders()
    ensures { PathsAreOrders }
{}

/// **What a search tells is so.** The labels on the way to a node that is told are an order, which leads to a point of it, and the note
/// is right of that point.
pub fn told_are_orders()
    ensures { ToldAreOrders }
{}

/// **A whole search leaves no order out.** Each order from the start leads to a point of a node that is told, and its note is right of
/// that point. A search breadth first tells it by no longer order.
pub fn orders_are_told()
    ensures { OrdersAreTold }
{}
