//! Searches are told one after another, with ever more preemptions.

ghost use Rattle.std.specs.Prelude.{◌≡◌, ◌≤◌, ◌++◌, IfErr, IfOk, OnOk};
ghost use Rattle.order_search.specs.Found.{finding_of};
ghost use Rattle.program_status.specs.Notes.{sink_side};
ghost use Rattle.xousorders.specs.Halts.{EndsIn, HaltsIn, TellsAll, TellsLevel};
ghost use Rattle.xousorders.specs.Reports.{report_lines, report_of, searched_line};

use crate::halt::Halt;
use crate::limits::Limits;
use crate::outcome::is_whole;
use crate::search::{Told, search_all};
use crate::view::View;
use crate::watching::Watch;
use graph_search::Found;
use order_model::{Move, Note};
use order_search::Quest;
use order_text::{put_differ, put_endings, put_extent, put_failures, put_limits, slices_tried};
use program_status::Status;
use std::alloc::{AllocError, Global};
use xk_ports::{Sink, put_all};

/// The line of how much was searched.
fn put_searched(
    text: &mut Vec<u8>,
    quest: &Quest,
    found: &Found<Move, Note>,
) -> Result<(), AllocError>
    ensures { let finding = finding_of quest.now.subject found.now in
        OnOk result (text.new.items ≡ text.old.items ++ searched_line finding) }
{
    let states = found.edges.len() as u64 + 1;
    let slices = slices_tried(&found.notes);
    put_extent(text, states, slices, found.extent)?;
    put_limits(text, quest.bound(), found.strategy, quest.preemptions())
}

/// The lines of what was found.
fn lines_of(
    alloc: Global,
    quest: &Quest,
    view: &View<'_>,
    told: &Told,
) -> Result<Vec<u8>, AllocError>
    ensures { IfOk result (λ text. text.items ≡ report_lines view.now (report_of quest.now.subject told.now)) }
{
    let mut text = Vec::new(alloc);
    put_searched(&mut text, quest, &told.found)?;
    put_endings(&mut text, &told.endings)?;
    put_failures(&mut text, &view.fails, &told.endings.list)?;
    put_differ(&mut text, view.differ, told.endings.list.len())?;
    Ok(text)
}

/// The search of orders with as many preemptions as the quest allows, which is told.
fn search_level<K: Sink, W: Watch>(
    alloc: Global,
    quest: &mut Quest,
    view: &View<'_>,
    limits: &Limits,
    out: &mut K,
    watch: &mut W,
) -> Result<Told, Halt>
    ensures tells { let sink = sink_side K.Sink out.old out.new in
        IfOk result (TellsLevel ⟦<[u8; 32] as Ord>⟧.cmp limits.now view.now quest.old.subject quest.new.subject sink) }
    ensures halts { let sink = sink_side K.Sink out.old out.new in
        IfErr result (HaltsIn ⟦<[u8; 32] as Ord>⟧.cmp limits.now view.now quest.old.subject sink) }
    ensures never_falls { K.faults out.old ≤ K.faults out.new }
{
    let told = search_all(alloc, quest, view, limits, out, watch)?;
    let text = match lines_of(alloc, quest, view, &told) {
        Ok(text) => text,
        Err(_) => return Err(Halt::Stopped(Status::NoMemory)),
    };
    match put_all(out, text.as_slice()) {
        Ok(()) => Ok(told),
        Err(_) => Err(Halt::Unwritten),
    }
}

/// The searches of orders with at most 0, 1, .. preemptions, which are told one after another: up to as many as are asked for, or up to one
/// that isn't whole. The last one is answered.
pub fn search_levels<K: Sink, W: Watch>(
    alloc: Global,
    quest: &mut Quest,
    view: &View<'_>,
    limits: &Limits,
    out: &mut K,
    watch: &mut W,
) -> Result<Told, Halt>
    ensures tells { let sink = sink_side K.Sink out.old out.new in
        IfOk result (TellsAll ⟦<[u8; 32] as Ord>⟧.cmp limits.now view.now quest.old.subject quest.new.subject sink) }
    ensures ends { let sink = sink_side K.Sink out.old out.new in
        IfErr result (EndsIn ⟦<[u8; 32] as Ord>⟧.cmp limits.now view.now quest.old.subject sink) }
    ensures never_falls { K.faults out.old ≤ K.faults out.new }
{
    let mut preemptions = 0;
    loop {
        quest.allow_preemptions(preemptions);
        let told = search_level(alloc, quest, view, limits, out, watch)?;
        if !is_whole(told.found.extent) {
            return Ok(told);
        }
        if preemptions >= limits.preemptions {
            return Ok(told);
        }
        preemptions += 1;
    }
}
