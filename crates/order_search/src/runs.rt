//! Orders are played from the start of an image.

ghost use Rattle.std.specs.Prelude.{◌≡◌, ◌≤◌, IfErr, IfOk, OnOk, length};
ghost use Rattle.suspend_image.specs.Sheets.{room_for};
ghost use Rattle.xk_kernel.specs.Knowing.{IsTrusted};
ghost use Rattle.xk_kernel.specs.Sound.{IsSound, IsUsable, Keeps};
ghost use Rattle.xk_kernel.specs.State.{machine_of};
ghost use Rattle.order_player.specs.Runs.{point_of};
ghost use Rattle.graph_search.specs.Edges.{HasCause};
ghost use Rattle.order_search.specs.Booted.{IsBooted};
ghost use Rattle.order_search.specs.Faults.{IsBegun, IsMemory, IsRunFault};
ghost use Rattle.order_search.specs.Quests.{Arrives, IsPath, searching_of, start_of};

use crate::before::play_before;
use crate::quest::{OrderFault, Quest, no_memory, unplayed};
use graph_search::Unanswered;
use order_model::{Move, Trail};
use order_player::play_order;
use xk_kernel::Kernel;
use xk_ports::{SureStore, SwapStore};

/// A run of an order: its kernel, and what it left beside.
pub(crate) struct Run {
    pub(crate) kernel: Kernel<SureStore>,
    pub(crate) trail: Trail,
}

impl Run {
    /// Ends the run.
    pub(crate) fn close(self)
        requires sound { IsSound ⟦<SureStore as SwapStore>⟧ self.kernel }
    {
        let Run { kernel, trail: _ } = self;
        kernel.close();
    }
}

impl Quest {
    /// The image is booted.
    fn boot(&self) -> Result<Kernel<SureStore>, Unanswered<OrderFault>>
        ensures booted { IfOk result (λ kernel. IsBooted ⟦<SureStore as SwapStore>⟧ self.now.subject kernel) }
        ensures sound { IfOk result (λ kernel. IsSound ⟦<SureStore as SwapStore>⟧ kernel) }
        ensures usable { IfOk result (λ kernel. IsUsable kernel) }
        ensures trusted { IfOk result (λ kernel. IsTrusted ⟦<SureStore as SwapStore>⟧ kernel) }
        ensures fault { IfErr result IsMemory }
        ensures room { IfOk result (λ kernel. let m = machine_of ⟦<SureStore as SwapStore>⟧.held kernel in
            room_for m.processes m.capacity ≤ self.now.sheet.room) }
    {
        let mut store = SureStore::new();
        let Ok(()) = store.prepare(self.alloc, self.subject.plan.slots, None) else {
            return Err(no_memory());
        };
        match Kernel::boot(self.alloc, &self.subject.plan, &self.subject.file, store) {
            Ok(kernel) => Ok(kernel),
            Err(_) => Err(no_memory()),
        }
    }

    /// The events before are played on the booted image.
    fn begin(&self, kernel: &mut Kernel<SureStore>) -> Result<Trail, Unanswered<OrderFault>>
        requires booted { IsBooted ⟦<SureStore as SwapStore>⟧ self.now.subject kernel.old }
        requires sound { IsSound ⟦<SureStore as SwapStore>⟧ kernel.old }
        requires usable { IsUsable kernel.old }
        requires trusted { IsTrusted ⟦<SureStore as SwapStore>⟧ kernel.old }
        ensures begun { OnOk result (IsBegun self.now.subject) }
        ensures fault { IfErr result (HasCause (IsRunFault self.now.subject)) }
        ensures point { IfOk result (λ trail. point_of ⟦<SureStore as SwapStore>⟧ kernel.new trail ≡ start_of self.now.subject) }
        ensures came { IfOk result (λ trail. length trail.came.items ≡ length self.now.subject.orders.once.items) }
        ensures sound { IsSound ⟦<SureStore as SwapStore>⟧ kernel.new }
        ensures usable { OnOk result (IsUsable kernel.new) }
        ensures keeps { Keeps ⟦<SureStore as SwapStore>⟧ kernel.old kernel.new }
    {
        let Ok(mut trail) = Trail::new(self.alloc, &self.subject.orders) else {
            return Err(no_memory());
        };
        trail.console = play_before(self.alloc, kernel, &self.subject.before)?;
        Ok(trail)
    }

    /// The events before and then the order are played on the booted image.
    fn play(
        &self,
        kernel: &mut Kernel<SureStore>,
        order: &[Move],
    ) -> Result<Trail, Unanswered<OrderFault>>
        requires path { IsPath (searching_of self.now.subject) order.now }
        requires booted { IsBooted ⟦<SureStore as SwapStore>⟧ self.now.subject kernel.old }
        requires sound { IsSound ⟦<SureStore as SwapStore>⟧ kernel.old }
        requires usable { IsUsable kernel.old }
        requires trusted { IsTrusted ⟦<SureStore as SwapStore>⟧ kernel.old }
        ensures arrives { let q = searching_of self.now.subject in
            IfOk result (λ trail. Arrives q order.now (point_of ⟦<SureStore as SwapStore>⟧ kernel.new trail)) }
        ensures begun { OnOk result (IsBegun self.now.subject) }
        ensures fault { IfErr result (HasCause (IsRunFault self.now.subject)) }
        ensures came { IfOk result (λ trail. length trail.came.items ≡ length self.now.subject.orders.once.items) }
        ensures sound { IsSound ⟦<SureStore as SwapStore>⟧ kernel.new }
        ensures usable { OnOk result (IsUsable kernel.new) }
        ensures keeps { Keeps ⟦<SureStore as SwapStore>⟧ kernel.old kernel.new }
    {
        let mut trail = self.begin(kernel)?;
        match play_order(kernel, &self.subject.orders, order, &mut trail) {
            Ok(()) => Ok(trail),
            Err(fault) => Err(unplayed(fault)),
        }
    }

    /// The image is booted, and the events before and then the order are played.
    pub(crate) fn arrive(&self, order: &[Move]) -> Result<Run, Unanswered<OrderFault>>
        requires path { IsPath (searching_of self.now.subject) order.now }
        ensures arrives { let q = searching_of self.now.subject in
            IfOk result (λ run. Arrives q order.now (point_of ⟦<SureStore as SwapStore>⟧ run.kernel run.trail)) }
        ensures begun { OnOk result (IsBegun self.now.subject) }
        ensures fault { IfErr result (HasCause (IsRunFault self.now.subject)) }
        ensures came { IfOk result (λ run. length run.trail.came.items ≡ length self.now.subject.orders.once.items) }
        ensures sound { IfOk result (λ run. IsSound ⟦<SureStore as SwapStore>⟧ run.kernel) }
        ensures usable { IfOk result (λ run. IsUsable run.kernel) }
        ensures trusted { IfOk result (λ run. IsTrusted ⟦<SureStore as SwapStore>⟧ run.kernel) }
        ensures room { IfOk result (λ run. let m = machine_of ⟦<SureStore as SwapStore>⟧.held run.kernel in
            room_for m.processes m.capacity ≤ self.now.sheet.room) }
    {
        let mut kernel = self.boot()?;
        match self.play(&mut kernel, order) {
            Ok(trail) => Ok(Run { kernel, trail }),
            Err(fault) => {
                kernel.close();
                Err(fault)
            }
        }
    }

    /// The events before are played, and no order yet.
    pub fn begin_alone(&self) -> Result<(), Unanswered<OrderFault>>
        ensures begun { OnOk result (IsBegun self.now.subject) }
        ensures fault { IfErr result (HasCause (IsRunFault self.now.subject)) }
    {
        let run = self.arrive(&[])?;
        run.close();
        Ok(())
    }
}
