//! What is searched.

ghost use Rattle.std.specs.Prelude.{◌≡◌, IfErr, IfOk, Option, Some};
ghost use Rattle.graph_search.specs.Graph.{LeadsOn, node_by};
ghost use Rattle.graph_search.specs.Edges.{AreEdgesFrom, HasCause};

use std::alloc::AllocError;

/// An edge that leaves a node: its label, and a key of the node to which it leads.
#[derive(Clone, Copy)]
pub struct Successor<L, K> {
    pub label: L,
    pub key: K,
}

/// What a space tells of a node: the edges that leave it, and a note.
#[derive(Drop)]
pub struct Followed<L, K, N> {
    pub edges: Vec<Successor<L, K>>,
    pub note: N,
}

/// Why a space gave no answer: for want of memory, or for a fault of its own.
#[derive(Drop)]
pub enum Unanswered<F> {
    Memory(AllocError),
    Fault(F),
}

/// A graph of nodes with labelled edges, whose nodes are named by the paths that lead to them from the start. A label leads from a node to
/// one other at most.
pub trait Space {
    type Label: Copy;

    type Key: Ord + Copy;

    /// What is to be known of each node whose edges were followed.
    type Note: Copy;

    type Fault: Drop;

    /// What stays the same while the space is searched, and on which the graph depends.
    ghost Setting: { Type 0 };

    ghost setting: { Self → Setting };

    ghost Node: { Type 0 };
    /// Where all paths begin.
    ghost start: { Setting → Node };
    /// The node to which the label leads from a node, where such an edge leaves it.
    ghost after: { Setting → Node → Self.Label → Option Node };
    /// The key may be given for the node.
    ghost IsKey: { Setting → Node → Self.Key → Type 0 };
    /// The note is right of the node.
    ghost IsNote: { Setting → Node → Self.Note → Type 0 };

    /// The cause of a fault.
    ghost IsFault: { Setting → Self.Fault → Type 0 };

    /// A key of the start.
    fn first(&mut self) -> Result<Self::Key, Unanswered<Self::Fault>>
        ensures kept { setting self.new ≡ setting self.old }
        ensures key { IfOk result (λ key. IsKey (setting self.old) (start (setting self.old)) key) }
        ensures fault { IfErr result (HasCause (IsFault (setting self.old))) };

    /// The edges that leave the node to which the path leads, and a note of it.
    fn successors(
        &mut self,
        path: &[Self::Label],
    ) -> Result<Followed<Self::Label, Self::Key, Self::Note>, Unanswered<Self::Fault>>
        requires { LeadsOn (after (setting self.old)) (start (setting self.old)) path.now }
        ensures kept { setting self.new ≡ setting self.old }
        ensures edges { IfOk result (λ found. AreEdgesFrom (after (setting self.old)) (IsKey (setting self.old))
            (node_by (after (setting self.old)) (start (setting self.old)) path.now) found.edges.items) }
        ensures note { IfOk result (λ found. (node : Node)
            → node_by (after (setting self.old)) (start (setting self.old)) path.now ≡ Some node
            → IsNote (setting self.old) node found.note) }
        ensures fault { IfErr result (HasCause (IsFault (setting self.old))) };
}
