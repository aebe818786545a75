//! In which order edges are followed where slices may be preempted: by turns, as the kernel's own order goes round.

ghost use Rattle.std.specs.Prelude.{◌≡◌, IfErr, IfOk};
ghost use Rattle.graph_search.specs.Edges.{HasCause};
ghost use Rattle.order_search.specs.ByTurns.{by_turns as edges_by_turns, comes_first, in_order, is_behind, last_thread, thread_of};
ghost use Rattle.order_search.specs.Faults.{IsFault};

use crate::quest::{OrderFault, Quest, no_memory};
use graph_search::{Successor, Unanswered};
use order_model::Move;
use std::alloc::{AllocError, Global};
use xk_base::ThreadId;

/// The thread whose slice the move is, if it is one.
fn thread_of(label: Move) -> Option<ThreadId>
    ensures { result ≡ thread_of label }
{
    match label {
        Move::Slice(who, _) | Move::Preempted(who, _) => Some(who),
        Move::Once(_) => None,
    }
}

/// The thread whose slice was the last move, if that was one.
fn last_thread(path: &[Move]) -> Option<ThreadId>
    ensures { result ≡ last_thread path.now }
{
    match path.last() {
        Some(label) => thread_of(*label),
        None => None,
    }
}

/// Whether a thread comes behind another by pid and tid.
fn is_behind(last: ThreadId, who: ThreadId) -> bool
    ensures { result ≡ is_behind last who }
{
    last.pid.0 < who.pid.0 || (last.pid.0 == who.pid.0 && last.tid.0 < who.tid.0)
}

/// Whether the move is a slice of a thread behind the one that had the last slice.
fn comes_first(last: Option<ThreadId>, label: Move) -> bool
    ensures { result ≡ comes_first last label }
{
    match (last, thread_of(label)) {
        (Some(last), Some(who)) => is_behind(last, who),
        _ => false,
    }
}

/// The edges behind this path by turns: those of threads behind the last one, and then the others.
fn by_turns(
    alloc: Global,
    path: &[Move],
    edges: &[Successor<Move, [u8; 32]>],
) -> Result<Vec<Successor<Move, [u8; 32]>>, AllocError>
    ensures { IfOk result (λ ordered. ordered.items ≡ edges_by_turns path.now edges.now) }
{
    let last = last_thread(path);
    let mut first = Vec::new(alloc);
    let mut others = Vec::new(alloc);
    for edge in edges {
        if comes_first(last, edge.label) {
            first.push(*edge)?;
        } else {
            others.push(*edge)?;
        }
    }
    first.extend_from_slice(&others)?;
    Ok(first)
}

impl Quest {
    /// The edges behind this path in the order in which they are followed: by turns, if slices may be preempted.
    pub(crate) fn in_order(
        &self,
        path: &[Move],
        edges: Vec<Successor<Move, [u8; 32]>>,
    ) -> Result<Vec<Successor<Move, [u8; 32]>>, Unanswered<OrderFault>>
        ensures order { IfOk result (λ ordered. ordered.items ≡ in_order self.now.subject.orders.preemptions path.now edges.items) }
        ensures fault { IfErr result (HasCause (IsFault self.now.subject)) }
    {
        if self.subject.orders.preemptions == 0 {
            return Ok(edges);
        }
        match by_turns(self.alloc, path, &edges) {
            Ok(ordered) => Ok(ordered),
            Err(_) => Err(no_memory()),
        }
    }
}
