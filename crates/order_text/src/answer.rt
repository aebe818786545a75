//! What is told of a search.

ghost use Rattle.std.specs.Prelude.{◌≡◌, ◌++◌, OnOk};
ghost use Rattle.order_text.specs.Lines.{bound_text, differ_text, ending_counts, ending_head, ending_line, endings_text, extent_head, extent_text};
ghost use Rattle.order_text.specs.Lines.{failure_line, failure_of, failures_text, level_text, limits_text, slices_tried as slices_tried_by};

use crate::endings::{Ending, Endings, count_looks};
use crate::failings::put_failing;
use crate::failures::{failing_of, is_several};
use crate::sizes::{put_counted, put_size};
use crate::text::{put, put_number};
use graph_search::{Cut, Extent, Strategy};
use order_model::{Failing, Move, Note};
use std::alloc::AllocError;

/// How many slices were tried from the nodes with these notes.
pub fn slices_tried(notes: &[Note]) -> u64
    ensures { result ≡ slices_tried_by notes.now }
{
    let mut slices = 0u64;
    for note in notes {
        slices = slices.saturating_add(note.slices as u64);
    }
    slices
}

/// Whether all was found.
fn put_how_far(text: &mut Vec<u8>, extent: Extent) -> Result<(), AllocError>
    ensures { OnOk result (text.new.items ≡ text.old.items ++ extent_text extent) }
{
    match extent {
        Extent::Whole => put(text, b" whole"),
        Extent::Cut(Cut::Nodes | Cut::Memory | Cut::Stopped) => put(text, b" cut"),
    }
}

/// The bound of steps, where there is one.
fn put_bound(text: &mut Vec<u8>, bound: Option<u32>) -> Result<(), AllocError>
    ensures { OnOk result (text.new.items ≡ text.old.items ++ bound_text bound) }
{
    match bound {
        None => Ok(()),
        Some(steps) => {
            put(text, b" within ")?;
            put_number(text, u64::from(steps))?;
            put(text, b" steps")
        }
    }
}

/// How many slices of an order are preempted at most, if the search is one depth first.
fn put_level(text: &mut Vec<u8>, strategy: Strategy, preemptions: u32) -> Result<(), AllocError>
    ensures { OnOk result (text.new.items ≡ text.old.items ++ level_text strategy preemptions) }
{
    match strategy {
        Strategy::Breadth => Ok(()),
        Strategy::Depth => {
            put(text, b" preemptions ")?;
            put_number(text, u64::from(preemptions))
        }
    }
}

/// Within which limits orders were searched.
pub fn put_limits(
    text: &mut Vec<u8>,
    bound: Option<u32>,
    strategy: Strategy,
    preemptions: u32,
) -> Result<(), AllocError>
    ensures { OnOk result (text.new.items ≡ text.old.items ++ limits_text bound strategy preemptions) }
{
    put_bound(text, bound)?;
    put_level(text, strategy, preemptions)?;
    put(text, b"\n")
}

/// How much was searched.
pub fn put_extent(
    text: &mut Vec<u8>,
    states: u64,
    slices: u64,
    extent: Extent,
) -> Result<(), AllocError>
    ensures { OnOk result (text.new.items ≡ text.old.items ++ extent_head states slices extent) }
{
    put(text, b"states ")?;
    put_number(text, states)?;
    put(text, b" slices ")?;
    put_number(text, slices)?;
    put_how_far(text, extent)
}

/// The number of an ending, and what is seen of it.
fn put_head(text: &mut Vec<u8>, number: u64, seen: &[u8]) -> Result<(), AllocError>
    ensures { OnOk result (text.new.items ≡ text.old.items ++ ending_head number seen.now) }
{
    put(text, b"ending ")?;
    put_number(text, number)?;
    put(text, b": ")?;
    put(text, seen)
}

/// Of how many nodes it is, and how long the order to the first is.
fn put_counts(text: &mut Vec<u8>, nodes: u64, order: &[Move]) -> Result<(), AllocError>
    ensures { OnOk result (text.new.items ≡ text.old.items ++ ending_counts nodes order.now) }
{
    put_counted(text, nodes, b"node")?;
    put(text, b"; ")?;
    put_size(text, order)?;
    put(text, b"\n")
}

/// The line of an ending, which so many nodes are like.
fn put_ending(
    text: &mut Vec<u8>,
    number: u64,
    ending: &Ending,
    nodes: u64,
) -> Result<(), AllocError>
    ensures { OnOk result (text.new.items
        ≡ text.old.items ++ ending_line number ending.now.seen.items nodes ending.now.order.items) }
{
    put_head(text, number, &ending.seen)?;
    put_counts(text, nodes, &ending.order)
}

/// The lines of the endings, and of how many there are.
pub fn put_endings(text: &mut Vec<u8>, endings: &Endings) -> Result<(), AllocError>
    ensures { OnOk result (text.new.items ≡ text.old.items ++ endings_text endings.now) }
{
    for place in 0..endings.list.len() {
        let nodes = count_looks(&endings.looks, place);
        let number = place as u64 + 1;
        put_ending(text, number, &endings.list[place], nodes)?;
    }
    put_counted(text, endings.list.len() as u64, b"ending")?;
    text.push(b'\n')?;
    Ok(())
}

/// The line of an ending that fails of this.
fn put_failure(
    text: &mut Vec<u8>,
    failing: &Failing<'_>,
    number: u64,
    order: &[Move],
) -> Result<(), AllocError>
    ensures { OnOk result (text.new.items ≡ text.old.items ++ failure_line failing.now number order.now) }
{
    put(text, b"fails: ")?;
    put_failing(text, failing)?;
    put(text, b" in ending ")?;
    put_number(text, number)?;
    put(text, b", ")?;
    put_size(text, order)?;
    text.push(b'\n')?;
    Ok(())
}

/// The line of the ending of this number, if it fails.
fn put_failure_of(
    text: &mut Vec<u8>,
    fails: &[Failing<'_>],
    number: u64,
    ending: &Ending,
) -> Result<(), AllocError>
    ensures { OnOk result (text.new.items ≡ text.old.items ++ failure_of fails.now number ending.now) }
{
    match failing_of(fails, ending) {
        Some(failing) => put_failure(text, &failing, number, &ending.order),
        None => Ok(()),
    }
}

/// The lines of the endings that fail.
pub fn put_failures(
    text: &mut Vec<u8>,
    fails: &[Failing<'_>],
    list: &[Ending],
) -> Result<(), AllocError>
    ensures { OnOk result (text.new.items ≡ text.old.items ++ failures_text fails.now list.now) }
{
    for place in 0..list.len() {
        let number = place as u64 + 1;
        put_failure_of(text, fails, number, &list[place])?;
    }
    Ok(())
}

/// The line of endings that differ, where there was to be one at most.
pub fn put_differ(text: &mut Vec<u8>, differ: bool, count: usize) -> Result<(), AllocError>
    ensures { OnOk result (text.new.items ≡ text.old.items ++ differ_text differ count) }
{
    if !is_several(differ, count) {
        return Ok(());
    }
    put(text, b"fails: differ, ")?;
    put_counted(text, count as u64, b"ending")?;
    text.push(b'\n')?;
    Ok(())
}
