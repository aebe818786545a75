//! What a search found, and the paths to it.

ghost use Rattle.std.specs.Prelude.{◌≡◌, ◌≤◌, length, IfOk};
ghost use Rattle.graph_search.specs.Paths.{IsTree, labels_to};

use std::alloc::{AllocError, Global};

/// By which edge a search came to a node: from which node, by its number, and by which label.
#[derive(Clone, Copy)]
pub struct Edge<L> {
    pub from: usize,
    pub label: L,
}

/// Which node is followed next.
#[derive(Clone, Copy, PartialEq, Eq, Debug)]
pub enum Strategy {
    /// The first that was found. A node is numbered when an edge to it is met.
    Breadth,
    /// That of the first edge of the node followed last; where there is none, of an edge of the last node before it. A node is numbered
    /// when it is followed.
    Depth,
}

/// What ended a search before it had found everything.
#[derive(Clone, Copy, PartialEq, Eq, Debug)]
pub enum Cut {
    /// There are more nodes than it was to keep.
    Nodes,
    /// Memory ended.
    Memory,
    /// The caller went no further.
    Stopped,
}

/// Whether a search found everything.
#[derive(Clone, Copy, PartialEq, Eq, Debug)]
pub enum Extent {
    Whole,
    Cut(Cut),
}

/// The nodes that a search found, in the order of their numbers. Node 0 is the start, and node k + 1 is that to which `edges[k]` leads.
#[derive(Drop)]
pub struct Found<L, N> {
    pub strategy: Strategy,
    pub edges: Vec<Edge<L>>,
    /// The notes of the first nodes. The edges of the later nodes weren't followed.
    pub notes: Vec<N>,
    pub extent: Extent,
}

/// The labels on the way from the start to the node of this number.
pub fn path_to<L: Copy>(alloc: Global, edges: &[Edge<L>], node: usize) -> Result<Vec<L>, AllocError>
    requires tree { IsTree edges.now }
    requires node { node ≤ length edges.now }
    ensures { IfOk result (λ path. path.items ≡ labels_to edges.now node) }
{
    let mut path = Vec::new(alloc);
    let mut at = node;
    while at > 0 {
        let edge = edges[at - 1];
        path.push(edge.label)?;
        at = edge.from;
    }
    path.as_mut_slice().reverse();
    Ok(path)
}
