//! The edges that leave a node.

ghost use Rattle.std.specs.List.{flat_map};
ghost use Rattle.std.specs.Prelude.{◌≡◌, ◌≤◌, ◌++◌, All, IfErr, IfOk, IsSome, List, OnOk, Some, length};
ghost use Rattle.machine_laws.specs.Reserved.{IsReservedByThread};
ghost use Rattle.suspend_image.specs.Sheets.{room_for};
ghost use Rattle.xk_kernel.specs.Knowing.{IsTrusted};
ghost use Rattle.xk_kernel.specs.Sound.{IsSound, IsUsable, Keeps};
ghost use Rattle.xk_kernel.specs.State.{machine_of};
ghost use Rattle.graph_search.specs.Edges.{HasCause};
ghost use Rattle.order_search.specs.Faults.{IsFault, IsUnchosen};
ghost use Rattle.order_model.specs.Moves.{Point, leads};
ghost use Rattle.order_model.specs.Nodes.{node_of};
ghost use Rattle.order_player.specs.Runs.{point_of};
ghost use Rattle.order_model.specs.Asking.{asked_of};
ghost use Rattle.order_model.specs.Choosing.{all_choices_at, choice_of, choices_at, preemptions_by};
ghost use Rattle.order_model.specs.declared.choices.Choice.{Choice};
ghost use Rattle.order_model.specs.Edges.{AreEdgesBy, IsEdge};
ghost use Rattle.order_search.specs.Quests.{Arrives, IsChoice, IsKeyOf, IsPath, searching_of};

use crate::beside::beside_bytes;
use crate::keys::node_key;
use crate::quest::{OrderFault, Quest, no_memory, unplayed};
use crate::runs::Run;
use graph_search::{Successor, Unanswered};
use order_model::{Choice, Move, Orders, add_preemptions};
use order_player::{play_move, play_thread};
use std::alloc::{AllocError, Global};
use xk_base::limits::STEP_LIMIT;
use xk_ports::{SureStore, SwapStore};

/// Makes the move in a run, where it may be made.
fn make(orders: &Orders, run: &mut Run, next: Move) -> Result<Move, Unanswered<OrderFault>>
    requires sound { IsSound ⟦<SureStore as SwapStore>⟧ run.old.kernel }
    requires usable { IsUsable run.old.kernel }
    requires trusted { IsTrusted ⟦<SureStore as SwapStore>⟧ run.old.kernel }
    requires came { length run.old.trail.came.items ≡ length orders.now.once.items }
    requires may { IsSome (leads (asked_of orders.now) (point_of ⟦<SureStore as SwapStore>⟧ run.old.kernel run.old.trail) next) }
    ensures leads { let old = point_of ⟦<SureStore as SwapStore>⟧ run.old.kernel run.old.trail in
        let new = point_of ⟦<SureStore as SwapStore>⟧ run.new.kernel run.new.trail in
        OnOk result (leads (asked_of orders.now) old next ≡ Some new) }
    ensures made { IfOk result (λ made. made ≡ next) }
    ensures fault { IfErr result (IsUnchosen (asked_of orders.now) (point_of ⟦<SureStore as SwapStore>⟧ run.old.kernel run.old.trail)) }
    ensures came { OnOk result (length run.new.trail.came.items ≡ length run.old.trail.came.items) }
    ensures sound { IsSound ⟦<SureStore as SwapStore>⟧ run.new.kernel }
    ensures usable { OnOk result (IsUsable run.new.kernel) }
    ensures keeps { Keeps ⟦<SureStore as SwapStore>⟧ run.old.kernel run.new.kernel }
{
    match play_move(&mut run.kernel, orders, next, &mut run.trail) {
        Ok(()) => Ok(next),
        Err(fault) => Err(unplayed(fault)),
    }
}

/// Makes the choice in a run, one of those that it has.
fn choose(orders: &Orders, run: &mut Run, choice: Choice) -> Result<Move, Unanswered<OrderFault>>
    requires sound { IsSound ⟦<SureStore as SwapStore>⟧ run.old.kernel }
    requires usable { IsUsable run.old.kernel }
    requires trusted { IsTrusted ⟦<SureStore as SwapStore>⟧ run.old.kernel }
    requires came { length run.old.trail.came.items ≡ length orders.now.once.items }
    requires may { IsChoice (asked_of orders.now) (point_of ⟦<SureStore as SwapStore>⟧ run.old.kernel run.old.trail) choice }
    ensures leads { let old = point_of ⟦<SureStore as SwapStore>⟧ run.old.kernel run.old.trail in
        let new = point_of ⟦<SureStore as SwapStore>⟧ run.new.kernel run.new.trail in
        IfOk result (λ next. leads (asked_of orders.now) old next ≡ Some new) }
    ensures choice { IfOk result (λ next. choice_of next ≡ choice) }
    ensures fault { IfErr result (IsUnchosen (asked_of orders.now) (point_of ⟦<SureStore as SwapStore>⟧ run.old.kernel run.old.trail)) }
    ensures came { OnOk result (length run.new.trail.came.items ≡ length run.old.trail.came.items) }
    ensures sound { IsSound ⟦<SureStore as SwapStore>⟧ run.new.kernel }
    ensures usable { OnOk result (IsUsable run.new.kernel) }
    ensures keeps { Keeps ⟦<SureStore as SwapStore>⟧ run.old.kernel run.new.kernel }
{
    match choice {
        Choice::Goes(who) => match play_thread(&mut run.kernel, orders, who, &mut run.trail) {
            Ok(steps) => Ok(Move::Slice(who, steps)),
            Err(fault) => Err(unplayed(fault)),
        },
        Choice::Preempts(who, steps) => make(orders, run, Move::Preempted(who, steps)),
        Choice::Comes(number) => make(orders, run, Move::Once(number)),
    }
}

/// The choices to preempt the slice that the move is, if it is a whole one, are added.
fn add_preemptions_of(choices: &mut Vec<Choice>, label: Move) -> Result<(), AllocError>
    ensures { OnOk result (choices.new.items ≡ choices.old.items ++ preemptions_by label) }
{
    match label {
        Move::Slice(who, steps) => add_preemptions(choices, who, steps),
        Move::Preempted(_, _) | Move::Once(_) => Ok(()),
    }
}

/// The choices to preempt the slices that these edges are.
fn preemptions(
    alloc: Global,
    edges: &[Successor<Move, [u8; 32]>],
) -> Result<Vec<Choice>, AllocError>
    ensures { IfOk result (λ choices. choices.items ≡ flat_map (λ edge. preemptions_by edge.label) edges.now) }
{
    let mut choices = Vec::new(alloc);
    for edge in edges {
        add_preemptions_of(&mut choices, edge.label)?;
    }
    Ok(choices)
}

impl Quest {
    /// The key of the node of a run.
    pub(crate) fn key(&mut self, run: &mut Run) -> Result<[u8; 32], Unanswered<OrderFault>>
        requires sound { IsSound ⟦<SureStore as SwapStore>⟧ run.old.kernel }
        requires usable { IsUsable run.old.kernel }
        requires trusted { IsTrusted ⟦<SureStore as SwapStore>⟧ run.old.kernel }
        requires came { length run.old.trail.came.items ≡ length self.old.subject.orders.once.items }
        requires reserved { IsReservedByThread (machine_of ⟦<SureStore as SwapStore>⟧.held run.old.kernel) }
        requires room { let m = machine_of ⟦<SureStore as SwapStore>⟧.held run.old.kernel in
            room_for m.processes m.capacity ≤ self.old.sheet.room }
        ensures key { let q = searching_of self.old.subject in
            IfOk result (λ key. IsKeyOf q (node_of q.asked (point_of ⟦<SureStore as SwapStore>⟧ run.old.kernel run.old.trail)) key) }
        ensures fault { let q = searching_of self.old.subject in
            IfErr result (IsUnchosen q.asked (point_of ⟦<SureStore as SwapStore>⟧ run.old.kernel run.old.trail)) }
        ensures subject { self.new.subject ≡ self.old.subject }
        ensures sound { IsSound ⟦<SureStore as SwapStore>⟧ run.new.kernel }
    {
        if run.kernel.steps() > STEP_LIMIT {
            return Err(Unanswered::Fault(OrderFault::Steps));
        }
        let Ok(()) = run.kernel.save(&mut self.sheet) else {
            return Err(no_memory());
        };
        let Ok(beside) = beside_bytes(self.alloc, &run.trail) else {
            return Err(no_memory());
        };
        let counts = self.subject.orders.bound.is_some();
        match node_key(
            self.alloc,
            &mut self.sheet,
            counts,
            &beside,
            &run.trail.console,
        ) {
            Ok(key) => Ok(key),
            Err(_) => Err(no_memory()),
        }
    }

    /// The edge by a choice from the node of this path, at the end of which a run is. It ends the run.
    fn edge_on(
        &mut self,
        path: &[Move],
        run: Run,
        choice: Choice,
    ) -> Result<Successor<Move, [u8; 32]>, Unanswered<OrderFault>>
        requires arrives { let q = searching_of self.old.subject in
            Arrives q path.now (point_of ⟦<SureStore as SwapStore>⟧ run.kernel run.trail) }
        requires came { length run.trail.came.items ≡ length self.old.subject.orders.once.items }
        requires sound { IsSound ⟦<SureStore as SwapStore>⟧ run.kernel }
        requires usable { IsUsable run.kernel }
        requires trusted { IsTrusted ⟦<SureStore as SwapStore>⟧ run.kernel }
        requires room { let m = machine_of ⟦<SureStore as SwapStore>⟧.held run.kernel in
            room_for m.processes m.capacity ≤ self.old.sheet.room }
        requires may { let q = searching_of self.old.subject in
            (p : Point) → Arrives q path.now p → IsChoice q.asked p choice }
        ensures edge { let q = searching_of self.old.subject in
            (p : Point) → Arrives q path.now p → IfOk result (λ edge. IsEdge (IsKeyOf q) q.asked p edge) }
        ensures choice { IfOk result (λ edge. choice_of edge.label ≡ choice) }
        ensures fault { IfErr result (HasCause (IsFault self.old.subject)) }
        ensures subject { self.new.subject ≡ self.old.subject }
    {
        let mut run = run;
        let label = match choose(&self.subject.orders, &mut run, choice) {
            Ok(label) => label,
            Err(fault) => {
                run.close();
                return Err(fault);
            }
        };
        let key = self.key(&mut run);
        run.close();
        match key {
            Ok(key) => Ok(Successor { label, key }),
            Err(fault) => Err(fault),
        }
    }

    /// The edge by a choice from the node of this path.
    fn edge(
        &mut self,
        path: &[Move],
        choice: Choice,
    ) -> Result<Successor<Move, [u8; 32]>, Unanswered<OrderFault>>
        requires path { IsPath (searching_of self.old.subject) path.now }
        requires may { let q = searching_of self.old.subject in
            (p : Point) → Arrives q path.now p → IsChoice q.asked p choice }
        ensures edge { let q = searching_of self.old.subject in
            (p : Point) → Arrives q path.now p → IfOk result (λ edge. IsEdge (IsKeyOf q) q.asked p edge) }
        ensures choice { IfOk result (λ edge. choice_of edge.label ≡ choice) }
        ensures fault { IfErr result (HasCause (IsFault self.old.subject)) }
        ensures subject { self.new.subject ≡ self.old.subject }
    {
        let run = self.arrive(path)?;
        self.edge_on(path, run, choice)
    }

    /// The edges by these choices, of those at the end of the path, are put behind others.
    fn add_edges(
        &mut self,
        path: &[Move],
        choices: &[Choice],
        edges: &mut Vec<Successor<Move, [u8; 32]>>,
    ) -> Result<(), Unanswered<OrderFault>>
        requires path { IsPath (searching_of self.old.subject) path.now }
        requires may { let q = searching_of self.old.subject in
            (p : Point) → Arrives q path.now p → All (IsChoice q.asked p) choices.now }
        ensures edges { let q = searching_of self.old.subject in
            (p : Point) (before : List Choice) → Arrives q path.now p → AreEdgesBy (IsKeyOf q) q.asked p before edges.old.items
            → OnOk result (AreEdgesBy (IsKeyOf q) q.asked p (before ++ choices.now) edges.new.items) }
        ensures fault { IfErr result (HasCause (IsFault self.old.subject)) }
        ensures subject { self.new.subject ≡ self.old.subject }
    {
        for choice in choices {
            let edge = self.edge(path, *choice)?;
            let Ok(()) = edges.push(edge) else {
                return Err(no_memory());
            };
        }
        Ok(())
    }

    /// The edges by these choices, which are those at the end of the path but for preempted slices. A run that is there makes the first.
    pub(crate) fn edges(
        &mut self,
        path: &[Move],
        run: Run,
        choices: &[Choice],
    ) -> Result<Vec<Successor<Move, [u8; 32]>>, Unanswered<OrderFault>>
        requires path { IsPath (searching_of self.old.subject) path.now }
        requires arrives { let q = searching_of self.old.subject in
            Arrives q path.now (point_of ⟦<SureStore as SwapStore>⟧ run.kernel run.trail) }
        requires came { length run.trail.came.items ≡ length self.old.subject.orders.once.items }
        requires sound { IsSound ⟦<SureStore as SwapStore>⟧ run.kernel }
        requires usable { IsUsable run.kernel }
        requires trusted { IsTrusted ⟦<SureStore as SwapStore>⟧ run.kernel }
        requires room { let m = machine_of ⟦<SureStore as SwapStore>⟧.held run.kernel in
            room_for m.processes m.capacity ≤ self.old.sheet.room }
        requires may { let q = searching_of self.old.subject in
            (p : Point) → Arrives q path.now p → choices.now ≡ choices_at q.asked p }
        ensures edges { let q = searching_of self.old.subject in
            (p : Point) → Arrives q path.now p → IfOk result (λ edges. AreEdgesBy (IsKeyOf q) q.asked p choices.now edges.items) }
        ensures fault { IfErr result (HasCause (IsFault self.old.subject)) }
        ensures subject { self.new.subject ≡ self.old.subject }
    {
        let mut edges = Vec::new(self.alloc);
        let Some((first, rest)) = choices.split_first() else {
            run.close();
            return Ok(edges);
        };
        let edge = self.edge_on(path, run, *first)?;
        let Ok(()) = edges.push(edge) else {
            return Err(no_memory());
        };
        self.add_edges(path, rest, &mut edges)?;
        Ok(edges)
    }

    /// The edges by preempted slices are put behind those by all other choices at the end of the path, where so many were preempted.
    pub(crate) fn add_preempted(
        &mut self,
        path: &[Move],
        preempted: u32,
        edges: &mut Vec<Successor<Move, [u8; 32]>>,
    ) -> Result<(), Unanswered<OrderFault>>
        requires path { IsPath (searching_of self.old.subject) path.now }
        requires preempted { let q = searching_of self.old.subject in (p : Point) → Arrives q path.now p → preempted ≡ p.preempted }
        requires edges { let q = searching_of self.old.subject in
            (p : Point) → Arrives q path.now p → AreEdgesBy (IsKeyOf q) q.asked p (choices_at q.asked p) edges.old.items }
        ensures edges { let q = searching_of self.old.subject in
            (p : Point) → Arrives q path.now p
            → OnOk result (AreEdgesBy (IsKeyOf q) q.asked p (all_choices_at q.asked p) edges.new.items) }
        ensures fault { IfErr result (HasCause (IsFault self.old.subject)) }
        ensures subject { self.new.subject ≡ self.old.subject }
    {
        if !self.subject.orders.may_preempt(preempted) {
            return Ok(());
        }
        let Ok(choices) = preemptions(self.alloc, edges) else {
            return Err(no_memory());
        };
        self.add_edges(path, &choices, edges)
    }
}
