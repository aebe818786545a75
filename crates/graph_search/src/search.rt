//! A search as far as it came.

ghost use Rattle.std.specs.Prelude.{◌≡◌};

use crate::found::{Edge, Extent, Found, Strategy};
use crate::space::Successor;
use std::collections::BTreeSet;

/// An edge whose node is numbered when it is followed: from which node it leaves, by its number.
#[derive(Clone, Copy)]
pub(crate) struct Waiting<L, K> {
    pub(crate) from: usize,
    pub(crate) edge: Successor<L, K>,
}

/// A search as far as it came. `begin` begins it, and `follow` goes on with it.
#[derive(Drop)]
pub struct Search<L, K: Ord, N> {
    pub(crate) strategy: Strategy,
    /// As in `Found`.
    pub(crate) edges: Vec<Edge<L>>,
    pub(crate) notes: Vec<N>,
    /// The keys of the nodes that were found.
    pub(crate) seen: BTreeSet<K>,
    /// The last is taken first. Breadth first, none waits.
    pub(crate) waiting: Vec<Waiting<L, K>>,
}

impl<L: Copy, K: Ord + Copy, N> Search<L, K, N> {
    /// The edges to the nodes that were found so far, as in `Found`.
    pub fn edges(&self) -> &[Edge<L>]
        ensures { result.now ≡ self.now.edges.items }
    {
        self.edges.as_slice()
    }

    /// The notes of the nodes that were followed so far, as in `Found`.
    pub fn notes(&self) -> &[N]
        ensures { result.now ≡ self.now.notes.items }
    {
        self.notes.as_slice()
    }

    /// What was found, if the search goes no further.
    pub fn into_found(self, extent: Extent) -> Found<L, N>
        ensures strategy { result.strategy ≡ self.strategy }
        ensures edges { result.edges.items ≡ self.edges.items }
        ensures notes { result.notes.items ≡ self.notes.items }
        ensures extent { result.extent ≡ extent }
    {
        let Search {
            strategy,
            edges,
            notes,
            seen: _,
            waiting: _,
        } = self;
        Found {
            strategy,
            edges,
            notes,
            extent,
        }
    }
}
