//! The endings of a search: those that are told alike are one.

ghost use Rattle.std.specs.Prelude.{◌≡◌, ◌<◌, ◌+◌, IfErr, IfSome, IfOk, OnOk, None, length, true};
ghost use Rattle.order_model.specs.Searches.{IsSound};
ghost use Rattle.order_search.specs.Found.{TellsOrders};
ghost use Rattle.xousorders.specs.Endings.{Adds, AddsOne, AreEndings, IsAt, Lists, NoneIs, ends_at};
ghost use Rattle.xousorders.specs.Endings.{same_place as same_place_of, same_shown, shown_in};
ghost use Rattle.xousorders.specs.Searched.{IsStopped, telling_at};

use crate::outcome::unplayed;
use crate::view::View;
use graph_search::{Search, path_to};
use order_model::{Move, Note, first_failing};
use order_search::{Quest, Stand};
use order_text::{Ending, Endings, Look, put_seen};
use program_status::Status;
use std::alloc::{AllocError, Global};

/// Whether two endings fail of the same.
fn same_place(one: Option<usize>, other: Option<usize>) -> bool
    ensures { result ≡ same_place_of one other }
{
    match (one, other) {
        (None, None) => true,
        (Some(one), Some(other)) => one == other,
        (None, Some(_)) | (Some(_), None) => false,
    }
}

/// Whether the ending is told so.
fn is_told_so(ending: &Ending, seen: &[u8], fails: Option<usize>) -> bool
    ensures { result ≡ same_shown (shown_in ending.now) (record { text = seen.now; fails = fails }) }
{
    ending.seen.as_slice() == seen && same_place(ending.fails, fails)
}

/// The place of the ending that is told so.
fn place_of(list: &[Ending], seen: &[u8], fails: Option<usize>) -> Option<usize>
    ensures place { IfSome result (λ place. IsAt list.now place (record { text = seen.now; fails = fails })) }
    ensures none { result ≡ None → NoneIs list.now (record { text = seen.now; fails = fails }) }
{
    for place in 0..list.len() {
        if is_told_so(&list[place], seen, fails) {
            return Some(place);
        }
    }
    None
}

/// The place of the ending of the node of this number, which is a new one where none is told so.
fn place_for(
    list: &mut Vec<Ending>,
    first: usize,
    seen: Vec<u8>,
    fails: Option<usize>,
    order: Vec<Move>,
) -> Result<usize, AllocError>
    ensures alike { IfOk result (λ place. IsAt list.new.items place (record { text = seen.items; fails = fails })) }
    ensures lists { OnOk result (Lists first order.items (record { text = seen.items; fails = fails }) list.old.items list.new.items) }
{
    match place_of(list, &seen, fails) {
        Some(place) => Ok(place),
        None => {
            let place = list.len();
            list.push(Ending {
                seen,
                fails,
                first,
                order,
            })?;
            Ok(place)
        }
    }
}

/// The node of this number is told with those that it is like.
fn add(
    endings: &mut Endings,
    node: usize,
    seen: Vec<u8>,
    fails: Option<usize>,
    order: Vec<Move>,
) -> Result<(), AllocError>
    ensures { OnOk result (Adds node order.items (record { text = seen.items; fails = fails }) endings.old endings.new) }
{
    let ending = place_for(&mut endings.list, node, seen, fails, order)?;
    endings.looks.push(Look { node, ending })?;
    Ok(())
}

/// What is seen of the node of this number is told, and of what it fails.
fn see(
    alloc: Global,
    quest: &mut Quest,
    view: &View<'_>,
    search: &Search<Move, [u8; 32], Note>,
    node: usize,
    endings: &mut Endings,
) -> Result<(), Status>
    requires sound { IsSound (telling_at quest.old.subject search.now) }
    requires told { TellsOrders (telling_at quest.old.subject search.now) }
    requires node { node < length search.now.notes.items }
    requires ends { ends_at (telling_at quest.old.subject search.now) node ≡ true }
    ensures adds { let t = telling_at quest.old.subject search.now in
        OnOk result (AreEndings t view.now node endings.old → AreEndings t view.now (node + 1) endings.new) }
    ensures one { OnOk result (AddsOne endings.old.list.items endings.new.list.items) }
    ensures subject { quest.new.subject ≡ quest.old.subject }
    ensures stopped { IfErr result (IsStopped quest.old.subject) }
{
    let order = path_to(alloc, search.edges(), node)?;
    let Stand { state, trail } = match quest.stand(&order) {
        Ok(stand) => stand,
        Err(answer) => return Err(unplayed(answer)),
    };
    let mut seen = Vec::new(alloc);
    put_seen(&mut seen, view.sights, view.hex, &state, &trail)?;
    let fails = first_failing(&view.fails, &state, &trail);
    add(endings, node, seen, fails, order)?;
    Ok(())
}

/// So it is if the node is one where orders end.
pub fn pass(
    alloc: Global,
    quest: &mut Quest,
    view: &View<'_>,
    search: &Search<Move, [u8; 32], Note>,
    node: usize,
    endings: &mut Endings,
) -> Result<(), Status>
    requires sound { IsSound (telling_at quest.old.subject search.now) }
    requires told { TellsOrders (telling_at quest.old.subject search.now) }
    requires node { node < length search.now.notes.items }
    ensures adds { let t = telling_at quest.old.subject search.now in
        OnOk result (AreEndings t view.now node endings.old → AreEndings t view.now (node + 1) endings.new) }
    ensures one { OnOk result (AddsOne endings.old.list.items endings.new.list.items) }
    ensures subject { quest.new.subject ≡ quest.old.subject }
    ensures stopped { IfErr result (IsStopped quest.old.subject) }
{
    let note = search.notes()[node];
    if note.ends {
        see(alloc, quest, view, search, node, endings)
    } else {
        Ok(())
    }
}
