//! What may come next at a state.

ghost use Rattle.std.specs.Prelude.{◌≡◌, ◌<◌, ◌≤◌, ◌^◌, ◌++◌, ◌∷◌, [], ℕ, Err, IfOk, List, OnOk, Some, false, if◌then◌else◌, length, map};
ghost use Rattle.machine_model.specs.State.Machine.{Machine};
ghost use Rattle.order_model.specs.Endings.{turns_at};
ghost use Rattle.order_model.specs.Moves.{Asked, Point};
ghost use Rattle.order_model.specs.Nodes.{goes_on};
ghost use Rattle.order_model.specs.Searches.{note_of as note_of_state};
ghost use Rattle.order_model.specs.Asking.{asked_of, bound_of};
ghost use Rattle.order_model.specs.Choosing.{IsSeen, IsStand, comes_at, events_at, preemptions_of};
ghost use Rattle.snapshot_rows.specs.Machines.{machine_of};
ghost use Rattle.order_model.specs.declared.choices.Choice.TheVariants.{Comes, Goes};
ghost use Rattle.xk_base.specs.declared.limits.TheConstants.{PROCESS_LIMIT};

use crate::coming::may_come;
use crate::moves::Note;
use crate::orders::{Orders, Trail};
use crate::turns::{has_timer, ready_ids};
use snapshot_rows::State;
use std::alloc::{AllocError, Global};
use xk_base::ThreadId;

/// What may come next: a slice of this thread, that slice preempted after so many steps, or the event of this number.
#[derive(Clone, Copy, Debug, PartialEq, Eq)]
pub enum Choice {
    Goes(ThreadId),
    Preempts(ThreadId, u32),
    Comes(u32),
}

/// What is seen of a node: what may come next, but for preempted slices, and its note.
#[derive(Drop)]
pub struct Sight {
    pub choices: Vec<Choice>,
    pub note: Note,
}

/// Why nothing is told of a node: want of memory, or orders without a bound come to a claim of the timer's interrupt.
#[derive(Clone, Copy, Debug, PartialEq, Eq)]
pub enum Unseen {
    Memory,
    Timer,
}

/// These threads are added to the choices.
fn add_turns(choices: &mut Vec<Choice>, ids: &[ThreadId]) -> Result<(), AllocError>
    ensures { OnOk result (choices.new.items ≡ choices.old.items ++ map Goes ids.now) }
{
    for who in ids {
        choices.push(Choice::Goes(*who))?;
    }
    Ok(())
}

/// The event of this number is added, where it may come.
fn add_event(
    choices: &mut Vec<Choice>,
    orders: &Orders,
    state: &State,
    trail: &Trail,
    number: u32,
) -> Result<(), AllocError>
    requires number { number < length orders.now.once.items }
    requires came { length trail.now.came.items ≡ length orders.now.once.items }
    ensures { (p : Point) → IsStand p state.now trail.now → OnOk result
        (choices.new.items ≡ choices.old.items ++ (if comes_at (asked_of orders.now) p number then Comes number ∷ [] else [])) }
{
    if !may_come(orders, state, trail, number) {
        return Ok(());
    }
    choices.push(Choice::Comes(number))?;
    Ok(())
}

/// The events that may come are added.
fn add_events(
    choices: &mut Vec<Choice>,
    orders: &Orders,
    state: &State,
    trail: &Trail,
) -> Result<(), AllocError>
    requires few { length orders.now.once.items < 2 ^ 32 }
    requires came { length trail.now.came.items ≡ length orders.now.once.items }
    ensures { (p : Point) → IsStand p state.now trail.now → OnOk result
        (choices.new.items ≡ choices.old.items ++ map Comes (events_at (asked_of orders.now) p)) }
{
    for number in 0..orders.once.len() as u32 {
        add_event(choices, orders, state, trail, number)?;
    }
    Ok(())
}

/// The threads that may have a slice at a state.
fn turns(alloc: Global, orders: &Orders, state: &State) -> Result<Vec<ThreadId>, AllocError>
    requires { state.now.n ≤ PROCESS_LIMIT }
    ensures { IfOk result (λ ids. (file : List ℕ) → ids.items ≡ turns_at (asked_of orders.now) (machine_of file state.now)) }
{
    if orders.is_at_bound(state.steps) {
        return Ok(Vec::new(alloc));
    }
    ready_ids(alloc, state)
}

/// Whether orders go on at a state: they have a bound, or nobody has claimed the timer's interrupt.
fn go_on(orders: &Orders, state: &State) -> bool
    ensures { (file : List ℕ) → result ≡ goes_on (bound_of orders.now.bound) (machine_of file state.now) }
{
    match orders.bound {
        Some(_) => true,
        None => !has_timer(state),
    }
}

/// What is seen at a state, with what the order to it left.
pub fn see(alloc: Global, orders: &Orders, state: &State, trail: &Trail) -> Result<Sight, Unseen>
    requires processes { state.now.n ≤ PROCESS_LIMIT }
    requires few { length orders.now.once.items < 2 ^ 32 }
    requires came { length trail.now.came.items ≡ length orders.now.once.items }
    ensures seen { (p : Point) → IsStand p state.now trail.now
        → IfOk result (λ sight. IsSeen (asked_of orders.now) p sight.choices.items sight.note) }
    ensures timer { (p : Point) → IsStand p state.now trail.now → result ≡ Err Unseen.Timer
        → goes_on (bound_of orders.now.bound) p.state ≡ false }
{
    if !go_on(orders, state) {
        return Err(Unseen::Timer);
    }
    let Ok(ids) = turns(alloc, orders, state) else {
        return Err(Unseen::Memory);
    };
    let note = note_of(&ids);
    let mut choices = Vec::new(alloc);
    let Ok(()) = add_turns(&mut choices, &ids) else {
        return Err(Unseen::Memory);
    };
    let Ok(()) = add_events(&mut choices, orders, state, trail) else {
        return Err(Unseen::Memory);
    };
    Ok(Sight { choices, note })
}

/// The choices to preempt the slice of a thread, which has so many steps, are added.
pub fn add_preemptions(
    choices: &mut Vec<Choice>,
    who: ThreadId,
    steps: u32,
) -> Result<(), AllocError>
    ensures { OnOk result (choices.new.items ≡ choices.old.items ++ preemptions_of who steps) }
{
    for done in 1..steps {
        choices.push(Choice::Preempts(who, done))?;
    }
    Ok(())
}

/// The note of a node at which these threads may have a slice.
fn note_of(ids: &[ThreadId]) -> Note
    ensures { (asked : Asked) (m : Machine) → ids.now ≡ turns_at asked m → result ≡ note_of_state asked m }
{
    Note {
        ends: ids.is_empty(),
        slices: ids.len(),
    }
}
