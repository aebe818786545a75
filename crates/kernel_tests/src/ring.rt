//! A ring of three nodes is searched, with room for all of them and with too little.

ghost use Rattle.std.specs.Prelude.{◌≡◌, IfOk, IfSome, [], ◌∷◌};
ghost use Rattle.graph_search.specs.Paths.{IsTree};

use crate::expecting::expect_eq;
use graph_search::{
    Cut, Extent, Followed, Found, Space, Strategy, Successor, Turn, Unanswered, begin, follow,
    path_to,
};
use std::alloc::{AllocError, Global};

/// The key of a node is how many labels lead to it, without whole rounds. Its clauses don't tell the nodes apart.
#[derive(Drop)]
struct Ring {
    alloc: Global,
}

impl Space for Ring {
    type Label = ();

    type Key = usize;

    type Note = ();

    type Fault = AllocError;

    ghost use Rattle.std.specs.Prelude.{Some};

    ghost Setting = { Unit {0} };

    ghost setting = { λ ring. tt };

    ghost Node = { Unit {0} };

    ghost start = { λ at. tt };

    ghost after = { λ at node label. Some tt };

    ghost IsKey = { λ at node key. Unit {0} };

    ghost IsNote = { λ at node note. Unit {0} };

    ghost IsFault = { λ at fault. Unit {0} };

    fn first(&mut self) -> Result<usize, Unanswered<AllocError>> {
        Ok(0)
    }

    fn successors(
        &mut self,
        path: &[()],
    ) -> Result<Followed<(), usize, ()>, Unanswered<AllocError>> {
        match one_edge(self.alloc, (path.len() % 3 + 1) % 3) {
            Ok(edges) => Ok(Followed { edges, note: () }),
            Err(error) => Err(Unanswered::Memory(error)),
        }
    }
}

fn one_edge(alloc: Global, key: usize) -> Result<Vec<Successor<(), usize>>, AllocError>
    ensures { IfOk result (λ edges. edges.items ≡ (record { label = tt; key = key }) ∷ []) }
{
    let mut edges = Vec::new(alloc);
    edges.push(Successor { label: (), key })?;
    Ok(edges)
}

// What a search of the ring finds, breadth first or depth first.
fn found_by(alloc: Global, strategy: Strategy, limit: usize) -> Option<Found<(), ()>>
    ensures { IfSome result (λ found. IsTree found.edges.items) }
{
    let mut ring = Ring { alloc };
    let Ok(mut search) = begin(alloc, &mut ring, strategy) else {
        return None;
    };
    for _turn in 0..10 {
        match follow(alloc, &mut ring, &mut search, limit) {
            Ok(Turn::Followed) => {}
            Ok(Turn::Whole) => return Some(search.into_found(Extent::Whole)),
            Ok(Turn::Cut(cut)) => return Some(search.into_found(Extent::Cut(cut))),
            Err(_) => return None,
        }
    }
    None
}

// Whether such a search finds so many edges and notes, and ends so.
fn finds(found: &Found<(), ()>, edges: usize, notes: usize, extent: Extent) -> bool {
    found.edges.len() == edges && found.notes.len() == notes && found.extent == extent
}

// Whether the way to the last node of the ring has two labels.
fn goes_round(alloc: Global, found: &Found<(), ()>) -> bool
    requires { IsTree found.now.edges.items }
{
    if found.edges.len() != 2 {
        return false;
    }
    match path_to(alloc, &found.edges, 2) {
        Ok(path) => path.len() == 2,
        Err(_) => false,
    }
}

// Whether a search finds the ring where there is room for it, and all but its last node where there is too little, having followed so many.
fn finds_ring(alloc: Global, strategy: Strategy, followed: usize) -> bool {
    let (Some(whole), Some(cut)) = (found_by(alloc, strategy, 3), found_by(alloc, strategy, 2))
    else {
        return false;
    };
    goes_round(alloc, &whole)
        && finds(&whole, 2, 3, Extent::Whole)
        && finds(&cut, 1, followed, Extent::Cut(Cut::Nodes))
}

// Breadth first, the second node is met where the first is followed; depth first, it is found where it is followed itself.
#[test]
fn ring_is_searched(rt: HostRuntime) {
    expect_eq(&rt, finds_ring(rt.alloc(), Strategy::Breadth, 1), true);
    expect_eq(&rt, finds_ring(rt.alloc(), Strategy::Depth, 2), true);
}
