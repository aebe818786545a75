//! Orders of the threads in slices: what a slice is, what an order of them makes of a machine, and laws of both. The definitions stand in
//! `specs/`; the functions have no code, and their contracts are the laws.

ghost use Rattle.std.specs.Prelude.{◌≡◌, ◌≤◌, ◌+◌, ℕ, true, List};
ghost use Rattle.xk_base.specs.declared.ids.ThreadId.{ThreadId};
ghost use Rattle.machine_model.specs.State.Machine.{Machine};
ghost use Rattle.machine_model.specs.State.Order.{ready_at};
ghost use Rattle.machine_laws.specs.History.{history, reached};
ghost use Rattle.order_model.specs.Slices.{slice, slice_events, turned};
ghost use Rattle.order_model.specs.SlicesInTurn.{AreReadyInSlices, InterleavingsAreOrders, order_events, slices_in_turn, steps_of_order};

/// **A slice is played.** For a thread that is Ready, `pick` and a `tick` of as many steps as its slice has do exactly its slice and end
/// the turn, where the limit allows these steps.
#[tactic(auto, using(crate::proofs::SliceLemmas::slice_plays))]
pub fn slice_is_played()
    ensures { (quantum limit : ℕ) (who : ThreadId) (m : Machine) → ready_at m who ≡ true
        → m.steps + (slice quantum who m).done ≤ limit
        → history (slice_events quantum who m) limit m ≡ reached (turned (slice quantum who m)) }
{}

/// **An order is played.** For threads that are each Ready at their slice, these events in a row do exactly their slices, where the limit
/// allows the steps of all of them.
#[tactic(auto, using(crate::proofs::OrderLemmas::order_plays))]
pub fn order_is_played()
    ensures { (quantum limit : ℕ) (order : List ThreadId) (m : Machine) → AreReadyInSlices quantum order m
        → m.steps + steps_of_order quantum order m ≤ limit
        → history (order_events quantum order m) limit m ≡ reached (slices_in_turn quantum order m) }
{}

/// **Whose turn it was doesn't matter.** A slice begins with a pick, so it is the same from two states that differ in the cursor alone.
#[tactic(auto, using(crate::proofs::SliceLemmas::slice_from_any_turn))]
pub fn slice_forgets_the_turn()
    ensures { (quantum : ℕ) (who cursor : ThreadId) (m : Machine) → ready_at m who ≡ true
        → slice quantum who (record m { cursor = cursor }) ≡ slice quantum who m }
{}

/// **With a quantum of 1 each interleaving is an order.** Threads that are each Ready at their turn are so at their slice, and their slices in
/// a row are their steps.
pub fn interleavings_are_orders()
    ensures { InterleavingsAreOrders }
{}
