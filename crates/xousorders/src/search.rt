//! A search is made, and each new ending is told when it is found.

ghost use Rattle.std.specs.Prelude.{◌≡◌, ◌≤◌, ◌<◌, ◌+◌, [], true, IfErr, IfOk, OnOk, length};
ghost use Rattle.order_model.specs.Searches.{IsSound};
ghost use Rattle.order_search.specs.Found.{FindsNodes, IsUnderWay, TellsOrders, so_far};
ghost use Rattle.program_status.specs.Notes.{sink_side};
ghost use Rattle.xk_ports.specs.Told.{Grows};
ghost use Rattle.xousorders.specs.Endings.{AddsOne, AreEndings};
ghost use Rattle.xousorders.specs.Halts.{BreaksCourse, BreaksOff, Finds, FindsBehind, Follows, HasGot, IsUntold};
ghost use Rattle.order_text.specs.Lines.{found_line};
ghost use Rattle.xousorders.specs.Reports.{MayStop, is_failure};
ghost use Rattle.xousorders.specs.Searched.{telling_at};

use crate::endings::pass;
use crate::halt::{Halt, halt_for, halt_of};
use crate::limits::Limits;
use crate::outcome::tells;
use crate::view::View;
use crate::watching::{Progress, Watch};
use graph_search::{Cut, Extent, Found, Search, Turn};
use order_model::{Failing, Move, Note};
use order_search::{Quest, begin_search, follow_node};
use order_text::{Ending, Endings, put_found};
use program_status::Status;
use std::alloc::Global;
use xk_ports::{Sink, put_all};

/// The nodes that a search found, and the endings among them.
#[derive(Drop)]
pub struct Told {
    pub found: Found<Move, Note>,
    pub endings: Endings,
}

/// Writes the line of an ending of this number.
fn write_found<K: Sink>(
    alloc: Global,
    fails: &[Failing<'_>],
    number: u64,
    ending: &Ending,
    out: &mut K,
) -> Result<(), Halt>
    ensures written { OnOk result (Grows (K.written out.old) (K.written out.new) (found_line fails.now number ending.now)) }
    ensures untold { IfErr result (IsUntold (sink_side K.Sink out.old out.new) (found_line fails.now number ending.now)) }
    ensures never_falls { K.faults out.old ≤ K.faults out.new }
{
    let mut line = Vec::new(alloc);
    match put_found(&mut line, fails, number, ending) {
        Ok(()) => {}
        Err(_) => return Err(Halt::Stopped(Status::NoMemory)),
    }
    match put_all(out, line.as_slice()) {
        Ok(()) => Ok(()),
        Err(_) => Err(Halt::Unwritten),
    }
}

/// The node of this number, which was followed last, is told. If orders end there and it is told otherwise than those before, its line is
/// written.
fn tell_node<K: Sink>(
    alloc: Global,
    quest: &mut Quest,
    view: &View<'_>,
    search: &Search<Move, [u8; 32], Note>,
    node: usize,
    endings: &mut Endings,
    out: &mut K,
) -> Result<(), Halt>
    requires sound { IsSound (telling_at quest.old.subject search.now) }
    requires told { TellsOrders (telling_at quest.old.subject search.now) }
    requires node { node < length search.now.notes.items }
    ensures adds { let t = telling_at quest.old.subject search.now in
        OnOk result (AreEndings t view.now node endings.old → AreEndings t view.now (node + 1) endings.new) }
    ensures one { OnOk result (AddsOne endings.old.list.items endings.new.list.items) }
    ensures got { (first : K) → HasGot view.now (sink_side K.Sink first out.old) endings.old.list.items
        → OnOk result (HasGot view.now (sink_side K.Sink first out.new) endings.new.list.items) }
    ensures breaks { (first : K) → HasGot view.now (sink_side K.Sink first out.old) endings.old.list.items
        → AreEndings (telling_at quest.old.subject search.now) view.now node endings.old
        → IfErr result (BreaksOff quest.old.subject view.now (sink_side K.Sink first out.new)) }
    ensures subject { quest.new.subject ≡ quest.old.subject }
    ensures never_falls { K.faults out.old ≤ K.faults out.new }
{
    let known = endings.list.len();
    match pass(alloc, quest, view, search, node, endings) {
        Ok(()) => {}
        Err(status) => return Err(Halt::Stopped(status)),
    }
    if endings.list.len() <= known {
        return Ok(());
    }
    let number = known as u64 + 1;
    write_found(alloc, &view.fails, number, &endings.list[known], out)
}

/// Whether a search that isn't whole stops with these endings.
fn is_stopped<W: Watch>(limits: &Limits, view: &View<'_>, list: &[Ending], watch: &mut W) -> bool
    ensures may { result ≡ true → MayStop limits.now view.now list.now }
    ensures must { limits.now.first ≡ true → is_failure view.now list.now ≡ true → result ≡ true }
{
    if limits.first && tells(&view.fails, view.differ, list) {
        return true;
    }
    match limits.seconds {
        Some(seconds) => watch.is_over(seconds),
        None => false,
    }
}

/// How far a search has come.
fn progress_of(search: &Search<Move, [u8; 32], Note>) -> Progress {
    Progress {
        nodes: search.edges().len().saturating_add(1),
        followed: search.notes().len(),
    }
}

/// Follows one node after another of a search that has followed none, and tells each new ending when it is found.
fn search_on<K: Sink, W: Watch>(
    alloc: Global,
    quest: &mut Quest,
    view: &View<'_>,
    limits: &Limits,
    search: &mut Search<Move, [u8; 32], Note>,
    endings: &mut Endings,
    out: &mut K,
    watch: &mut W,
) -> Result<Extent, Halt>
    requires under_way { IsUnderWay ⟦<[u8; 32] as Ord>⟧.cmp limits.now.states quest.old.subject search.old }
    requires nodes { FindsNodes limits.now.states (so_far quest.old.subject search.old (Extent.Cut Cut.Stopped)) }
    requires notes { search.old.notes.items ≡ [] }
    requires list { endings.old.list.items ≡ [] }
    requires looks { endings.old.looks.items ≡ [] }
    ensures follows { let sink = sink_side K.Sink out.old out.new in
        IfOk result (Follows ⟦<[u8; 32] as Ord>⟧.cmp limits.now view.now quest.old.subject search.new endings.new sink) }
    ensures breaks { IfErr result (BreaksOff quest.old.subject view.now (sink_side K.Sink out.old out.new)) }
    ensures subject { quest.new.subject ≡ quest.old.subject }
    ensures strategy { search.new.strategy ≡ search.old.strategy }
    ensures never_falls { K.faults out.old ≤ K.faults out.new }
{
    loop {
        let node = search.notes().len();
        match follow_node(alloc, quest, search, limits.states) {
            Ok(Turn::Followed) => {}
            Ok(Turn::Whole) => return Ok(Extent::Whole),
            Ok(Turn::Cut(cut)) => return Ok(Extent::Cut(cut)),
            Err(fault) => return Err(halt_of(fault)),
        }
        tell_node(alloc, quest, view, search, node, endings, out)?;
        watch.see(progress_of(search));
        if is_stopped(limits, view, &endings.list, watch) {
            return Ok(Extent::Cut(Cut::Stopped));
        }
    }
}

/// A search of the orders of a quest as they are.
fn search_once<K: Sink, W: Watch>(
    alloc: Global,
    quest: &mut Quest,
    view: &View<'_>,
    limits: &Limits,
    out: &mut K,
    watch: &mut W,
) -> Result<Told, Halt>
    ensures finds { let sink = sink_side K.Sink out.old out.new in
        IfOk result (Finds ⟦<[u8; 32] as Ord>⟧.cmp limits.now view.now quest.old.subject sink) }
    ensures breaks { IfErr result (BreaksOff quest.old.subject view.now (sink_side K.Sink out.old out.new)) }
    ensures subject { quest.new.subject ≡ quest.old.subject }
    ensures never_falls { K.faults out.old ≤ K.faults out.new }
{
    let mut search = match begin_search(alloc, quest, limits.strategy) {
        Ok(search) => search,
        Err(answer) => return Err(halt_for(answer)),
    };
    let mut endings = Endings::new(alloc);
    let extent = search_on(
        alloc,
        quest,
        view,
        limits,
        &mut search,
        &mut endings,
        out,
        watch,
    )?;
    let found = search.into_found(extent);
    Ok(Told { found, endings })
}

/// The search without a bound of steps; or, if an order comes to a claim of the timer's interrupt, behind that the search with one.
pub fn search_all<K: Sink, W: Watch>(
    alloc: Global,
    quest: &mut Quest,
    view: &View<'_>,
    limits: &Limits,
    out: &mut K,
    watch: &mut W,
) -> Result<Told, Halt>
    ensures finds { let sink = sink_side K.Sink out.old out.new in
        IfOk result (FindsBehind ⟦<[u8; 32] as Ord>⟧.cmp limits.now view.now quest.old.subject quest.new.subject sink) }
    ensures breaks { let sink = sink_side K.Sink out.old out.new in
        IfErr result (BreaksCourse limits.now.steps view.now quest.old.subject sink) }
    ensures never_falls { K.faults out.old ≤ K.faults out.new }
{
    match search_once(alloc, quest, view, limits, out, watch) {
        Ok(told) => return Ok(told),
        Err(Halt::Timer) => {}
        Err(Halt::Stopped(status)) => return Err(Halt::Stopped(status)),
        Err(Halt::Unwritten) => return Err(Halt::Unwritten),
    }
    match put_all(out, b"steps count\n") {
        Ok(()) => {}
        Err(_) => return Err(Halt::Unwritten),
    }
    quest.count_steps(limits.steps);
    search_once(alloc, quest, view, limits, out, watch)
}
