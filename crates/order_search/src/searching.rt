//! The search, which its caller drives.

ghost use Rattle.std.specs.Prelude.{◌≡◌, ℕ, IfErr, IfOk};
ghost use Rattle.graph_search.specs.Edges.{HasCause};
ghost use Rattle.graph_search.specs.Searches.{Begins, Goes};
ghost use Rattle.order_search.specs.Faults.{IsFault};
ghost use Rattle.order_search.specs.Found.{FindsAllOrders, FindsNodes, IsUnderWay, extent_after, so_far};

use crate::quest::{OrderFault, Quest};
use graph_search::{Cut, Extent, Search, Strategy, Turn, Unanswered, begin, follow};
use order_model::{Move, Note};
use std::alloc::Global;

/// A search of the orders of an image that has found the node of its start alone.
///
/// # Errors
///
/// Want of memory, or why the events before aren't played.
pub fn begin_search(
    alloc: Global,
    quest: &mut Quest,
    strategy: Strategy,
) -> Result<Search<Move, [u8; 32], Note>, Unanswered<OrderFault>>
    ensures begins { IfOk result (λ search. Begins strategy search) }
    ensures under_way { IfOk result (λ search. (limit : ℕ) → IsUnderWay ⟦<[u8; 32] as Ord>⟧.cmp limit quest.new.subject search) }
    ensures nodes { IfOk result (λ search. (limit : ℕ) → FindsNodes limit (so_far quest.new.subject search (Extent.Cut Cut.Stopped))) }
    ensures fault { IfErr result (HasCause (IsFault quest.new.subject)) }
    ensures subject { quest.new.subject ≡ quest.old.subject }
{
    begin(alloc, quest, strategy)
}

/// Follows one node more of the orders of an image, where at most `limit` nodes are to be found. Whatever comes of it, what was found so
/// far is so. A whole search found the nodes of all orders, and breadth first each by a shortest.
///
/// # Errors
///
/// A run may not have as many steps as an order, a process claims the timer's interrupt where orders have no bound, or a line of the
/// events before is bad; each only where it is so.
pub fn follow_node(
    alloc: Global,
    quest: &mut Quest,
    search: &mut Search<Move, [u8; 32], Note>,
    limit: usize,
) -> Result<Turn, OrderFault>
    requires { IsUnderWay ⟦<[u8; 32] as Ord>⟧.cmp limit quest.old.subject search.old }
    ensures under_way { IsUnderWay ⟦<[u8; 32] as Ord>⟧.cmp limit quest.new.subject search.new }
    ensures goes { Goes limit search.old search.new result }
    ensures nodes { FindsNodes limit (so_far quest.new.subject search.new (extent_after result)) }
    ensures whole { FindsAllOrders ⟦<[u8; 32] as Ord>⟧.cmp (so_far quest.new.subject search.new (extent_after result)) }
    ensures fault { IfErr result (IsFault quest.new.subject) }
    ensures subject { quest.new.subject ≡ quest.old.subject }
{
    follow(alloc, quest, search, limit)
}
