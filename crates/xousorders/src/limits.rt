//! Within which limits orders are searched.

use graph_search::Strategy;

/// Which node a search follows next, and when it ends.
#[derive(Clone, Copy, Debug)]
pub struct Limits {
    pub strategy: Strategy,
    /// How many nodes it keeps at most.
    pub states: usize,
    /// How many steps an order has at most, if steps count.
    pub steps: u32,
    /// How many slices of an order are preempted at most.
    pub preemptions: u32,
    /// Whether it stops at the first failure.
    pub first: bool,
    /// Behind how many seconds it stops.
    pub seconds: Option<u32>,
}
