//! What is seen where an order ends.

ghost use Rattle.std.specs.Prelude.{◌≡◌, ◌≤◌, ℕ, IfErr, IfOk, List, OnOk, length};
ghost use Rattle.machine_laws.specs.Reserved.{IsReservedByThread};
ghost use Rattle.snapshot_rows.specs.Machines.{machine_of as machine_in};
ghost use Rattle.suspend_image.specs.Sheets.{room_for};
ghost use Rattle.xk_base.specs.declared.limits.TheConstants.{PROCESS_LIMIT, STEP_LIMIT};
ghost use Rattle.xk_kernel.specs.Knowing.{IsTrusted};
ghost use Rattle.xk_kernel.specs.Sound.{IsSound, IsUsable, Keeps};
ghost use Rattle.xk_kernel.specs.State.{machine_of};
ghost use Rattle.order_model.specs.Moves.{Point};
ghost use Rattle.order_model.specs.Choosing.{IsSeen, IsStand};
ghost use Rattle.graph_search.specs.Edges.{HasCause};
ghost use Rattle.order_player.specs.Runs.{point_of};
ghost use Rattle.order_search.specs.Faults.{IsFault, IsMemory, IsRunFault};
ghost use Rattle.order_search.specs.Quests.{Arrives, IsPath, searching_of};
ghost use Rattle.order_search.specs.Rows.{IsRead};

use crate::quest::{OrderFault, Quest, no_memory};
use crate::runs::Run;
use graph_search::Unanswered;
use order_model::{Move, Sight, Trail, Unseen, see};
use suspend_image::{State, read_state};
use xk_base::limits::STEP_LIMIT;
use xk_kernel::Kernel;
use xk_ports::{SureStore, SwapStore};

/// Where an order ends: the state, and what the order left beside.
#[derive(Drop)]
pub struct Stand {
    pub state: State,
    pub trail: Trail,
}

impl Quest {
    /// The rows of a kernel's state.
    fn rows(&mut self, kernel: &mut Kernel<SureStore>) -> Result<State, Unanswered<OrderFault>>
        requires sound { IsSound ⟦<SureStore as SwapStore>⟧ kernel.old }
        requires usable { IsUsable kernel.old }
        requires trusted { IsTrusted ⟦<SureStore as SwapStore>⟧ kernel.old }
        requires within { (machine_of ⟦<SureStore as SwapStore>⟧.held kernel.old).steps ≤ STEP_LIMIT }
        requires reserved { IsReservedByThread (machine_of ⟦<SureStore as SwapStore>⟧.held kernel.old) }
        requires room { let m = machine_of ⟦<SureStore as SwapStore>⟧.held kernel.old in
            room_for m.processes m.capacity ≤ self.old.sheet.room }
        ensures rows { IfOk result (λ state. (file : List ℕ)
            × (machine_in file state ≡ machine_of ⟦<SureStore as SwapStore>⟧.held kernel.old)) }
        ensures read { IfOk result IsRead }
        ensures fault { IfErr result IsMemory }
        ensures few { IfOk result (λ state. state.n ≤ PROCESS_LIMIT) }
        ensures subject { self.new.subject ≡ self.old.subject }
        ensures sheet { self.new.sheet.room ≡ self.old.sheet.room }
        ensures machine { machine_of ⟦<SureStore as SwapStore>⟧.held kernel.new ≡ machine_of ⟦<SureStore as SwapStore>⟧.held kernel.old }
        ensures sound { IsSound ⟦<SureStore as SwapStore>⟧ kernel.new }
        ensures usable { OnOk result (IsUsable kernel.new) }
        ensures keeps { Keeps ⟦<SureStore as SwapStore>⟧ kernel.old kernel.new }
    {
        let Ok(()) = kernel.save(&mut self.sheet) else {
            return Err(no_memory());
        };
        match read_state(self.alloc, self.sheet.as_slice()) {
            Ok(state) => Ok(state),
            Err(_) => Err(no_memory()),
        }
    }

    /// The rows of the state of a run at the end of the order. The run stays there.
    fn rows_there(&mut self, order: &[Move], run: &mut Run) -> Result<State, Unanswered<OrderFault>>
        requires arrives { let q = searching_of self.old.subject in
            Arrives q order.now (point_of ⟦<SureStore as SwapStore>⟧ run.old.kernel run.old.trail) }
        requires sound { IsSound ⟦<SureStore as SwapStore>⟧ run.old.kernel }
        requires usable { IsUsable run.old.kernel }
        requires trusted { IsTrusted ⟦<SureStore as SwapStore>⟧ run.old.kernel }
        requires room { let m = machine_of ⟦<SureStore as SwapStore>⟧.held run.old.kernel in
            room_for m.processes m.capacity ≤ self.old.sheet.room }
        ensures rows { IfOk result (λ state. (file : List ℕ)
            × (machine_in file state ≡ machine_of ⟦<SureStore as SwapStore>⟧.held run.old.kernel)) }
        ensures read { IfOk result IsRead }
        ensures within { IfOk result (λ state. state.steps ≤ STEP_LIMIT) }
        ensures fault { IfErr result (HasCause (IsRunFault self.old.subject)) }
        ensures few { IfOk result (λ state. state.n ≤ PROCESS_LIMIT) }
        ensures subject { self.new.subject ≡ self.old.subject }
        ensures sheet { self.new.sheet.room ≡ self.old.sheet.room }
        ensures machine { machine_of ⟦<SureStore as SwapStore>⟧.held run.new.kernel
            ≡ machine_of ⟦<SureStore as SwapStore>⟧.held run.old.kernel }
        ensures trail { run.new.trail ≡ run.old.trail }
        ensures sound { IsSound ⟦<SureStore as SwapStore>⟧ run.new.kernel }
        ensures usable { OnOk result (IsUsable run.new.kernel) }
        ensures keeps { Keeps ⟦<SureStore as SwapStore>⟧ run.old.kernel run.new.kernel }
    {
        if run.kernel.steps() > STEP_LIMIT {
            return Err(Unanswered::Fault(OrderFault::Steps));
        }
        self.rows(&mut run.kernel)
    }

    /// The state at the end of the order, and what the order left beside.
    pub fn stand(&mut self, order: &[Move]) -> Result<Stand, Unanswered<OrderFault>>
        requires path { IsPath (searching_of self.old.subject) order.now }
        ensures stands { let q = searching_of self.old.subject in
            (p : Point) → Arrives q order.now p → IfOk result (λ stand. IsStand p stand.state stand.trail) }
        ensures read { IfOk result (λ stand. IsRead stand.state) }
        ensures within { IfOk result (λ stand. stand.state.steps ≤ STEP_LIMIT) }
        ensures fault { IfErr result (HasCause (IsRunFault self.old.subject)) }
        ensures few { IfOk result (λ stand. stand.state.n ≤ PROCESS_LIMIT) }
        ensures came { IfOk result (λ stand. length stand.trail.came.items ≡ length self.old.subject.orders.once.items) }
        ensures subject { self.new.subject ≡ self.old.subject }
    {
        let mut run = self.arrive(order)?;
        let rows = self.rows_there(order, &mut run);
        let Run { kernel, trail } = run;
        kernel.close();
        match rows {
            Ok(state) => Ok(Stand { state, trail }),
            Err(fault) => Err(fault),
        }
    }

    /// What is seen of the node of this path, at the end of which a run is. The run stays there.
    pub(crate) fn look(
        &mut self,
        path: &[Move],
        run: &mut Run,
    ) -> Result<Sight, Unanswered<OrderFault>>
        requires arrives { let q = searching_of self.old.subject in
            Arrives q path.now (point_of ⟦<SureStore as SwapStore>⟧ run.old.kernel run.old.trail) }
        requires came { length run.old.trail.came.items ≡ length self.old.subject.orders.once.items }
        requires sound { IsSound ⟦<SureStore as SwapStore>⟧ run.old.kernel }
        requires usable { IsUsable run.old.kernel }
        requires trusted { IsTrusted ⟦<SureStore as SwapStore>⟧ run.old.kernel }
        requires room { let m = machine_of ⟦<SureStore as SwapStore>⟧.held run.old.kernel in
            room_for m.processes m.capacity ≤ self.old.sheet.room }
        ensures sight { let q = searching_of self.old.subject in
            (p : Point) → Arrives q path.now p → IfOk result (λ sight. IsSeen q.asked p sight.choices.items sight.note) }
        ensures fault { IfErr result (HasCause (IsFault self.old.subject)) }
        ensures subject { self.new.subject ≡ self.old.subject }
        ensures sheet { self.new.sheet.room ≡ self.old.sheet.room }
        ensures machine { machine_of ⟦<SureStore as SwapStore>⟧.held run.new.kernel
            ≡ machine_of ⟦<SureStore as SwapStore>⟧.held run.old.kernel }
        ensures trail { run.new.trail ≡ run.old.trail }
        ensures sound { IsSound ⟦<SureStore as SwapStore>⟧ run.new.kernel }
        ensures usable { OnOk result (IsUsable run.new.kernel) }
        ensures keeps { Keeps ⟦<SureStore as SwapStore>⟧ run.old.kernel run.new.kernel }
    {
        let state = self.rows_there(path, run)?;
        match see(self.alloc, &self.subject.orders, &state, &run.trail) {
            Ok(sight) => Ok(sight),
            Err(Unseen::Memory) => Err(no_memory()),
            Err(Unseen::Timer) => Err(Unanswered::Fault(OrderFault::Timer)),
        }
    }
}
