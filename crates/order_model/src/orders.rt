//! The orders that are asked for, and what a run of one leaves.

ghost use Rattle.std.specs.Prelude.{◌≡◌, [], false, IfOk, length, replicate};
ghost use Rattle.machine_model.specs.State.Machine.{Machine};
ghost use Rattle.order_model.specs.Moves.{Point, is_at_bound, may_preempt, most_within};
ghost use Rattle.order_model.specs.Asking.{asked_of, bound_of};

use crate::exits::Ended;
use std::alloc::{AllocError, Global};
use xk_base::Event;

/// The orders that are asked for.
#[derive(Drop)]
pub struct Orders {
    /// How many steps a slice has at most.
    pub quantum: u32,
    /// How many steps an order has at most; none where steps don't count.
    pub bound: Option<u32>,
    /// The events that may come, each once.
    pub once: Vec<Event>,
    /// Whether orders differ by what processes end with.
    pub exits: bool,
    /// How many slices of an order are preempted at most.
    pub preemptions: u32,
}

/// What an order leaves beside a state: the bytes that went to the console, which of the events came, the processes that ended, and how
/// many of its slices were preempted.
#[derive(Drop)]
pub struct Trail {
    pub console: Vec<u8>,
    pub came: Vec<bool>,
    pub ends: Vec<Ended>,
    pub preempted: u32,
}

impl Orders {
    /// How many steps the next slice has at most, after so many.
    pub fn most_steps(&self, steps: u32) -> u32
        ensures { result ≡ most_within (bound_of self.now.bound) self.now.quantum steps }
    {
        match self.bound {
            None => self.quantum,
            Some(bound) => self.quantum.min(bound.saturating_sub(steps)),
        }
    }

    /// Whether no step is left after so many.
    pub fn is_at_bound(&self, steps: u32) -> bool
        ensures { (m : Machine) → steps ≡ m.steps → result ≡ is_at_bound (bound_of self.now.bound) m }
    {
        self.bound.is_some_and(|bound| steps >= bound)
    }

    /// Whether one more slice may be preempted, after so many.
    pub fn may_preempt(&self, preempted: u32) -> bool
        ensures { (p : Point) → preempted ≡ p.preempted → result ≡ may_preempt (asked_of self.now) p }
    {
        preempted < self.preemptions
    }
}

impl Trail {
    /// That of an order without moves.
    pub fn new(alloc: Global, orders: &Orders) -> Result<Trail, AllocError>
        ensures console { IfOk result (λ trail. trail.console.items ≡ []) }
        ensures ends { IfOk result (λ trail. trail.ends.items ≡ []) }
        ensures came { IfOk result (λ trail. trail.came.items ≡ replicate (length orders.now.once.items) false) }
        ensures preempted { IfOk result (λ trail. trail.preempted ≡ 0) }
    {
        let came = vec![in alloc; false; orders.once.len()]?;
        Ok(Trail {
            console: Vec::new(alloc),
            came,
            ends: Vec::new(alloc),
            preempted: 0,
        })
    }
}
