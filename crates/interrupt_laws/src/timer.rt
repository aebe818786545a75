//! The timer over runs of the abstract machine: what a raise is, and who stores in the timer's page, under the theorem
//! `timer_raises_at_its_step` of `laws`. The functions have no code; their contracts are the laws.

ghost use Rattle.interrupt_laws.specs.Arming.{OnlyClaimantStores};
ghost use Rattle.interrupt_laws.specs.Raising.{ElseNothing, RaiseIsEvent};

/// In a step that the timer raises its interrupt in, that comes last, as by an event.
pub fn raise_is_an_event()
    ensures { RaiseIsEvent }
{}

/// In any other step the timer does nothing.
pub fn nothing_else_is_done()
    ensures { ElseNothing }
{}

/// Where the machine is matched, only the process that has claimed the timer's interrupt arms or disarms the
/// timer by a store.
pub fn only_the_claimant_stores()
    ensures { OnlyClaimantStores }
{}
