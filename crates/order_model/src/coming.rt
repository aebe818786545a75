//! Which of the events that may come once may come at a state.

ghost use Rattle.std.specs.Prelude.{◌≡◌, ◌<◌, ◌≤◌, ℕ, List, Some, is_some, length, slice_get};
ghost use Rattle.machine_model.specs.State.Machine.{Machine};
ghost use Rattle.order_model.specs.Asking.{asked_of, came_of};
ghost use Rattle.order_model.specs.Choosing.{IsStand, comes_at};
ghost use Rattle.order_model.specs.Moves.{Point, is_idle as is_idle_at, same_event as are_equal, waits_at as waits_so, waits_before as waits_first, what_comes};
ghost use Rattle.snapshot_rows.specs.Machines.{machine_of};

use crate::orders::{Orders, Trail};
use crate::turns::is_claimed;
use snapshot_rows::{State, is_alive};
use xk_base::Event;

/// Whether the event may come by itself, as ticks and picks don't.
fn comes_itself(event: Event) -> bool
    ensures { (m : Machine) → result ≡ is_some (what_comes event m) }
{
    match event {
        Event::Irq(_) | Event::Kill(_) => true,
        Event::Tick(_) | Event::Pick(_, _) => false,
    }
}

/// Whether two events are equal.
fn same_event(one: Event, other: Event) -> bool
    ensures { result ≡ are_equal one other }
{
    match (one, other) {
        (Event::Tick(steps), Event::Tick(of_other)) => steps == of_other,
        (Event::Pick(pid, tid), Event::Pick(other_pid, other_tid)) => {
            pid.0 == other_pid.0 && tid.0 == other_tid.0
        }
        (Event::Irq(number), Event::Irq(of_other)) => number == of_other,
        (Event::Kill(pid), Event::Kill(of_other)) => pid.0 == of_other.0,
        (_, _) => false,
    }
}

/// Whether a thread has reserved an address.
fn is_reserved(state: &State) -> bool
    ensures { (file : List ℕ) → result ≡ is_some (machine_of file state.now).reserved }
{
    state.reserved == 1
}

/// Whether the event can do nothing at the state.
fn is_idle(event: Event, state: &State) -> bool
    ensures { (file : List ℕ) → result ≡ is_idle_at event (machine_of file state.now) }
{
    if is_reserved(state) {
        return false;
    }
    match event {
        Event::Irq(number) => !is_claimed(state.claims.as_slice(), u32::from(number)),
        Event::Kill(pid) => !is_alive(state.procs.as_slice(), u32::from(pid.0)),
        Event::Tick(_) | Event::Pick(_, _) => false,
    }
}

/// Whether the event of this number came.
fn has_come(came: &[bool], number: u32) -> bool
    requires { number < length came.now }
    ensures { result ≡ came_of came.now number }
{
    came[number as usize]
}

/// The event of this number.
fn event_at(orders: &Orders, number: u32) -> Event
    requires { number < length orders.now.once.items }
    ensures { slice_get orders.now.once.items number ≡ Some result }
{
    orders.once[number as usize]
}

/// Whether the event of this number is equal to that one, and hasn't come.
fn waits_at(orders: &Orders, came: &[bool], event: Event, number: u32) -> bool
    requires number { number < length orders.now.once.items }
    requires came { length came.now ≡ length orders.now.once.items }
    ensures { (p : Point) → ((k : ℕ) → came_of came.now k ≡ p.came k) → result ≡ waits_so (asked_of orders.now) event p number }
{
    if has_come(came, number) {
        return false;
    }
    same_event(event, event_at(orders, number))
}

/// Whether an event that is equal to it, of a number below this one, hasn't come.
fn waits_before(orders: &Orders, came: &[bool], event: Event, number: u32) -> bool
    requires number { number ≤ length orders.now.once.items }
    requires came { length came.now ≡ length orders.now.once.items }
    ensures { (p : Point) → ((k : ℕ) → came_of came.now k ≡ p.came k) → result ≡ waits_first (asked_of orders.now) event p number }
{
    for lower in 0..number {
        if waits_at(orders, came, event, lower) {
            return true;
        }
    }
    false
}

/// Whether the event of this number may come.
pub(crate) fn may_come(orders: &Orders, state: &State, trail: &Trail, number: u32) -> bool
    requires number { number < length orders.now.once.items }
    requires came { length trail.now.came.items ≡ length orders.now.once.items }
    ensures { (p : Point) → IsStand p state.now trail.now → result ≡ comes_at (asked_of orders.now) p number }
{
    if has_come(&trail.came, number) {
        return false;
    }
    let event = event_at(orders, number);
    if waits_before(orders, &trail.came, event, number) {
        return false;
    }
    if is_idle(event, state) {
        return false;
    }
    comes_itself(event)
}
