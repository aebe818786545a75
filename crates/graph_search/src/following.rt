//! A search begins, and follows one node more.

ghost use Rattle.std.specs.Prelude.{◌≡◌, ◌≢◌, ◌≤◌, IfErr, IfOk, Ok, length};
ghost use Rattle.graph_search.specs.Edges.{HasCause};
ghost use Rattle.graph_search.specs.Searches.{Begins, Goes, IsSearch, IsWhole};

use crate::found::{Cut, Strategy, path_to};
use crate::meeting::{leave, take};
use crate::search::Search;
use crate::space::{Followed, Space, Unanswered};
use std::alloc::Global;
use std::collections::BTreeSet;

/// What came of the call that was to follow one node more.
#[derive(Clone, Copy, PartialEq, Eq, Debug)]
pub enum Turn {
    /// It followed one.
    Followed,
    /// All nodes were found and followed before.
    Whole,
    /// It followed none, since the search is at an end for this cause. A later call may go on, if it has more room.
    Cut(Cut),
}

/// A search that has found the start alone, and followed nothing.
///
/// # Errors
///
/// Want of memory, or a fault of the space, which has its cause.
pub fn begin<S: Space>(
    alloc: Global,
    space: &mut S,
    strategy: Strategy,
) -> Result<Search<S::Label, S::Key, S::Note>, Unanswered<S::Fault>>
    ensures kept { S.setting space.new ≡ S.setting space.old }
    ensures begins { IfOk result (λ search. Begins strategy search) }
    ensures search { let at = S.setting space.old in
        IfOk result (λ search. IsSearch (S.after at) (S.IsKey at) (S.IsNote at) S.Key.cmp (S.start at) search) }
    ensures fault { IfErr result (HasCause (S.IsFault (S.setting space.old))) }
{
    let mut seen = BTreeSet::new(alloc);
    let key = space.first()?;
    match seen.insert(key) {
        Ok(_) => Ok(Search {
            strategy,
            edges: Vec::new(alloc),
            notes: Vec::new(alloc),
            seen,
            waiting: Vec::new(alloc),
        }),
        Err(error) => Err(Unanswered::Memory(error.into())),
    }
}

/// Follows the first node that wasn't followed yet.
fn expand<S: Space>(
    alloc: Global,
    space: &mut S,
    search: &mut Search<S::Label, S::Key, S::Note>,
    limit: usize,
) -> Result<Turn, S::Fault>
    requires search { let at = S.setting space.old in
        IsSearch (S.after at) (S.IsKey at) (S.IsNote at) S.Key.cmp (S.start at) search.old }
    requires more { length search.old.notes.items ≤ length search.old.edges.items }
    ensures kept { S.setting space.new ≡ S.setting space.old }
    ensures search { let at = S.setting space.old in
        IsSearch (S.after at) (S.IsKey at) (S.IsNote at) S.Key.cmp (S.start at) search.new }
    ensures goes { Goes limit search.old search.new result }
    ensures not_whole { result ≢ Ok Turn.Whole }
    ensures fault { IfErr result (S.IsFault (S.setting space.old)) }
{
    let from = search.notes.len();
    let path = match path_to(alloc, &search.edges, from) {
        Ok(path) => path,
        Err(_) => return Ok(Turn::Cut(Cut::Memory)),
    };
    let Followed { edges, note } = match space.successors(&path) {
        Ok(followed) => followed,
        Err(Unanswered::Memory(_)) => return Ok(Turn::Cut(Cut::Memory)),
        Err(Unanswered::Fault(fault)) => return Err(fault),
    };
    match leave(search, from, &edges, limit) {
        Ok(()) => {}
        Err(cut) => return Ok(Turn::Cut(cut)),
    }
    match search.notes.push(note) {
        Ok(()) => Ok(Turn::Followed),
        Err(_) => Ok(Turn::Cut(Cut::Memory)),
    }
}

/// Follows one node more, where at most `limit` nodes are to be found. Whatever comes of it, what was found is right: each node by a path
/// that leads to it, in the order of the strategy, and none twice, if all its keys are equal. Once the search is whole, each path leads to
/// a node that was found, if no two nodes have one key; breadth first, by no longer path.
///
/// # Errors
///
/// A fault of the space, which has its cause.
pub fn follow<S: Space>(
    alloc: Global,
    space: &mut S,
    search: &mut Search<S::Label, S::Key, S::Note>,
    limit: usize,
) -> Result<Turn, S::Fault>
    requires { let at = S.setting space.old in
        IsSearch (S.after at) (S.IsKey at) (S.IsNote at) S.Key.cmp (S.start at) search.old }
    ensures kept { S.setting space.new ≡ S.setting space.old }
    ensures search { let at = S.setting space.old in
        IsSearch (S.after at) (S.IsKey at) (S.IsNote at) S.Key.cmp (S.start at) search.new }
    ensures goes { Goes limit search.old search.new result }
    ensures whole { let at = S.setting space.old in
        IfOk result (λ turn. turn ≡ Turn.Whole → IsWhole (S.after at) (S.IsKey at) S.Key.cmp (S.start at) search.new) }
    ensures fault { IfErr result (S.IsFault (S.setting space.old)) }
{
    while search.notes.len() > search.edges.len() {
        match take(search, limit) {
            Ok(true) => {}
            Ok(false) => return Ok(Turn::Whole),
            Err(cut) => return Ok(Turn::Cut(cut)),
        }
    }
    expand(alloc, space, search, limit)
}
