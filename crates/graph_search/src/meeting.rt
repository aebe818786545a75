//! Edges are met, or wait.

ghost use Rattle.std.specs.Prelude.{◌≡◌, ◌≢◌, ◌≤◌, ◌+◌, ◌-◌, ◌++◌, [], IfErr, Ok, OnErr, OnOk, false, length, true};
ghost use Rattle.graph_search.specs.Searching.{IsCut, LeavesAll, LeavesSome, Meets, MeetsInTurn, MeetsSome, PutsOffSome, Takes};
ghost use Rattle.graph_search.specs.Searching.{progress_of, put_off as put_off_of};

use crate::found::{Cut, Edge, Strategy};
use crate::search::{Search, Waiting};
use crate::space::Successor;
use std::alloc::AllocError;

/// An edge from the node of this number is met: its node is found, unless one with its key was; but not beyond `limit` nodes.
fn meet<L: Copy, K: Ord + Copy, N>(
    search: &mut Search<L, K, N>,
    from: usize,
    edge: Successor<L, K>,
    limit: usize,
) -> Result<(), Cut>
    ensures met { OnOk result (Meets K.cmp from edge (progress_of search.old) (progress_of search.new)) }
    ensures err { OnErr result (progress_of search.new ≡ progress_of search.old) }
    ensures within { length search.old.edges.items ≤ limit - 1 → length search.new.edges.items ≤ limit - 1 }
    ensures cut { IfErr result (IsCut limit search.new.edges.items) }
{
    if search.seen.contains(&edge.key) {
        return Ok(());
    }
    if search.edges.len() >= limit.saturating_sub(1) {
        return Err(Cut::Nodes);
    }
    let came = Edge {
        from,
        label: edge.label,
    };
    match search.edges.push(came) {
        Ok(()) => {}
        Err(_) => return Err(Cut::Memory),
    }
    match search.seen.insert(edge.key) {
        Ok(_) => Ok(()),
        Err(_) => {
            let _ = search.edges.pop();
            Err(Cut::Memory)
        }
    }
}

/// These edges are met in their order, or the first of them.
fn meet_all<L: Copy, K: Ord + Copy, N>(
    search: &mut Search<L, K, N>,
    from: usize,
    edges: &[Successor<L, K>],
    limit: usize,
) -> Result<(), Cut>
    ensures all { OnOk result (MeetsInTurn K.cmp from edges.now (length edges.now) (progress_of search.old) (progress_of search.new)) }
    ensures some { MeetsSome K.cmp from edges.now (progress_of search.old) (progress_of search.new) }
    ensures within { length search.old.edges.items ≤ limit - 1 → length search.new.edges.items ≤ limit - 1 }
    ensures cut { IfErr result (IsCut limit search.new.edges.items) }
{
    for edge in edges {
        match meet(search, from, *edge, limit) {
            Ok(()) => {}
            Err(cut) => return Err(cut),
        }
    }
    Ok(())
}

/// These edges wait, so that the first is taken first; or the last of them do.
fn put_off<L: Copy, K: Ord + Copy, N>(
    search: &mut Search<L, K, N>,
    from: usize,
    edges: &[Successor<L, K>],
) -> Result<(), AllocError>
    ensures all { let old = progress_of search.old in
        OnOk result (progress_of search.new ≡ record old { waiting = old.waiting ++ put_off_of from edges.now }) }
    ensures some { PutsOffSome K.cmp from edges.now (progress_of search.old) (progress_of search.new) }
{
    let mut left = edges.len();
    while left > 0 {
        let edge = edges[left - 1];
        search.waiting.push(Waiting { from, edge })?;
        left -= 1;
    }
    Ok(())
}

/// The edges that leave the node of this number are met, breadth first; depth first they wait.
pub(crate) fn leave<L: Copy, K: Ord + Copy, N>(
    search: &mut Search<L, K, N>,
    from: usize,
    edges: &[Successor<L, K>],
    limit: usize,
) -> Result<(), Cut>
    ensures all { let old = progress_of search.old in
        OnOk result (LeavesAll K.cmp from old.strategy edges.now old (progress_of search.new)) }
    ensures some { let old = progress_of search.old in LeavesSome K.cmp from old.strategy edges.now old (progress_of search.new) }
    ensures within { length search.old.edges.items ≤ limit - 1 → length search.new.edges.items ≤ limit - 1 }
    ensures cut { IfErr result (IsCut limit search.new.edges.items) }
{
    match search.strategy {
        Strategy::Breadth => meet_all(search, from, edges, limit),
        Strategy::Depth => match put_off(search, from, edges) {
            Ok(()) => Ok(()),
            Err(_) => Err(Cut::Memory),
        },
    }
}

/// The edge that waits last is met, and waits no longer. Whether there is one.
pub(crate) fn take<L: Copy, K: Ord + Copy, N>(
    search: &mut Search<L, K, N>,
    limit: usize,
) -> Result<bool, Cut>
    ensures none { result ≡ Ok false → search.old.waiting.items ≡ [] }
    ensures one { result ≡ Ok true → Takes K.cmp (progress_of search.old) (progress_of search.new) }
    ensures same { result ≢ Ok true → progress_of search.new ≡ progress_of search.old }
    ensures within { length search.old.edges.items ≤ limit - 1 → length search.new.edges.items ≤ limit - 1 }
    ensures cut { IfErr result (IsCut limit search.new.edges.items) }
{
    let count = search.waiting.len();
    if count == 0 {
        return Ok(false);
    }
    let Waiting { from, edge } = search.waiting[count - 1];
    match meet(search, from, edge, limit) {
        Ok(()) => {}
        Err(cut) => return Err(cut),
    }
    let _ = search.waiting.pop();
    Ok(true)
}
