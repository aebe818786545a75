//! Moves are played on a kernel.

ghost use Rattle.std.specs.Prelude.{◌≡◌, ◌≢◌, ◌<◌, ◌+◌, IfOk, IsSome, OnOk, Err, Some, false, length, set, slice_get, true};
ghost use Rattle.xk_base.specs.Outside.{Rose};
ghost use Rattle.xk_base.specs.declared.limits.TheConstants.{STEP_LIMIT};
ghost use Rattle.machine_model.specs.State.Order.{ready_at};
ghost use Rattle.vm_memory.specs.Memory.{store_of};
ghost use Rattle.xk_kernel.specs.Knowing.{IsTrusted};
ghost use Rattle.xk_kernel.specs.Sound.{IsSound, IsUsable, Keeps};
ghost use Rattle.xk_kernel.specs.State.{machine_of};
ghost use Rattle.order_model.specs.Moves.{is_at_bound, leads, leads_by};
ghost use Rattle.order_model.specs.declared.moves.Move.TheVariants.{Once, Preempted, Slice};
ghost use Rattle.order_model.specs.Asking.{asked_of, bound_of};
ghost use Rattle.order_player.specs.Played.{shown};
ghost use Rattle.order_player.specs.Runs.{IsNearLimit, MeetsLimit, point_of};
ghost use Rattle.order_player.specs.Steps.{IsSlice, KeepsMoves};

use crate::slices::{SliceFault, play_slice};
use crate::told::push_told;
use order_model::{Move, Orders, Trail};
use xk_base::limits::STEP_LIMIT;
use xk_base::{Event, ThreadId};
use xk_kernel::Kernel;
use xk_ports::SwapStore;

/// Why a move wasn't played to its end.
#[derive(Clone, Copy, Debug, PartialEq, Eq)]
pub enum MoveFault {
    /// The store failed.
    Swap,
    /// There was no memory for what the records tell.
    Memory,
    /// A run may not have as many steps.
    Steps,
}

/// Plays a slice of so many steps at most, if a run may have as many.
fn play_within<W: SwapStore>(
    kernel: &mut Kernel<W>,
    who: ThreadId,
    most: u32,
    keeps: bool,
    trail: &mut Trail,
) -> Result<u32, MoveFault>
    requires sound { IsSound W.SwapStore kernel.old }
    requires usable { IsUsable kernel.old }
    requires trusted { IsTrusted W.SwapStore kernel.old }
    ensures plays { IfOk result (λ steps. IsSlice keeps most who (shown W.SwapStore kernel.old trail.old) steps
        (shown W.SwapStore kernel.new trail.new)) }
    ensures moves { KeepsMoves trail.old trail.new }
    ensures sound { IsSound W.SwapStore kernel.new }
    ensures usable { OnOk result (IsUsable kernel.new) }
    ensures swap { result ≡ Err MoveFault.Swap → Rose (W.faults (store_of kernel.old.mem)) (W.faults (store_of kernel.new.mem)) }
    ensures steps { result ≡ Err MoveFault.Steps → STEP_LIMIT < (machine_of W.held kernel.old).steps + most }
    ensures keeps { Keeps W.SwapStore kernel.old kernel.new }
{
    if u64::from(kernel.steps()) + u64::from(most) > u64::from(STEP_LIMIT) {
        return Err(MoveFault::Steps);
    }
    match play_slice(kernel, who, most, keeps, trail) {
        Ok(steps) => Ok(steps),
        Err(SliceFault::Swap) => Err(MoveFault::Swap),
        Err(SliceFault::Memory) => Err(MoveFault::Memory),
    }
}

/// Plays the slice of a thread that is Ready, and answers how many steps it has.
pub fn play_thread<W: SwapStore>(
    kernel: &mut Kernel<W>,
    orders: &Orders,
    who: ThreadId,
    trail: &mut Trail,
) -> Result<u32, MoveFault>
    requires sound { IsSound W.SwapStore kernel.old }
    requires usable { IsUsable kernel.old }
    requires trusted { IsTrusted W.SwapStore kernel.old }
    requires ready { ready_at (machine_of W.held kernel.old) who ≡ true }
    requires left { is_at_bound (bound_of orders.now.bound) (machine_of W.held kernel.old) ≡ false }
    ensures leads { let old = point_of W.SwapStore kernel.old trail.old in
        let new = point_of W.SwapStore kernel.new trail.new in
        IfOk result (λ steps. leads (asked_of orders.now) old (Slice who steps) ≡ Some new) }
    ensures moves { KeepsMoves trail.old trail.new }
    ensures sound { IsSound W.SwapStore kernel.new }
    ensures usable { OnOk result (IsUsable kernel.new) }
    ensures swap { result ≡ Err MoveFault.Swap → Rose (W.faults (store_of kernel.old.mem)) (W.faults (store_of kernel.new.mem)) }
    ensures steps { result ≡ Err MoveFault.Steps → IsNearLimit (asked_of orders.now) (point_of W.SwapStore kernel.old trail.old) }
    ensures keeps { Keeps W.SwapStore kernel.old kernel.new }
{
    let most = orders.most_steps(kernel.steps());
    match play_within(kernel, who, most, orders.exits, trail) {
        Ok(steps) => Ok(steps),
        Err(fault) => Err(fault),
    }
}

/// One more than that, of so many at most.
fn one_more(count: u32, most: u32) -> u32
    requires { count < most }
    ensures { result ≡ count + 1 }
{
    count + 1
}

/// Plays the slice of a thread up to the step after which it is preempted, where it may be.
fn play_preempted<W: SwapStore>(
    kernel: &mut Kernel<W>,
    orders: &Orders,
    who: ThreadId,
    steps: u32,
    trail: &mut Trail,
) -> Result<(), MoveFault>
    requires sound { IsSound W.SwapStore kernel.old }
    requires usable { IsUsable kernel.old }
    requires trusted { IsTrusted W.SwapStore kernel.old }
    requires leads { IsSome (leads (asked_of orders.now) (point_of W.SwapStore kernel.old trail.old) (Preempted who steps)) }
    ensures leads { let old = point_of W.SwapStore kernel.old trail.old in
        let new = point_of W.SwapStore kernel.new trail.new in
        OnOk result (leads (asked_of orders.now) old (Preempted who steps) ≡ Some new) }
    ensures came { trail.new.came ≡ trail.old.came }
    ensures sound { IsSound W.SwapStore kernel.new }
    ensures usable { OnOk result (IsUsable kernel.new) }
    ensures swap { result ≡ Err MoveFault.Swap → Rose (W.faults (store_of kernel.old.mem)) (W.faults (store_of kernel.new.mem)) }
    ensures steps { result ≡ Err MoveFault.Steps → IsNearLimit (asked_of orders.now) (point_of W.SwapStore kernel.old trail.old) }
    ensures keeps { Keeps W.SwapStore kernel.old kernel.new }
{
    match play_within(kernel, who, steps, orders.exits, trail) {
        Ok(_) => {
            trail.preempted = one_more(trail.preempted, orders.preemptions);
            Ok(())
        }
        Err(fault) => Err(fault),
    }
}

/// The event of this number.
fn event_of(orders: &Orders, number: u32) -> Event
    requires { number < length orders.now.once.items }
    ensures { slice_get orders.now.once.items number ≡ Some result }
{
    orders.once[number as usize]
}

/// The event of this number came.
fn mark(came: &mut Vec<bool>, number: u32)
    requires { number < length came.old.items }
    ensures { came.new.items ≡ set came.old.items number true }
{
    came[number as usize] = true;
}

/// Plays the event of this number, which may come.
fn play_once<W: SwapStore>(
    kernel: &mut Kernel<W>,
    orders: &Orders,
    number: u32,
    trail: &mut Trail,
) -> Result<(), MoveFault>
    requires sound { IsSound W.SwapStore kernel.old }
    requires usable { IsUsable kernel.old }
    requires all { length trail.old.came.items ≡ length orders.now.once.items }
    requires leads { IsSome (leads (asked_of orders.now) (point_of W.SwapStore kernel.old trail.old) (Once number)) }
    ensures leads { let old = point_of W.SwapStore kernel.old trail.old in
        let new = point_of W.SwapStore kernel.new trail.new in
        OnOk result (leads (asked_of orders.now) old (Once number) ≡ Some new) }
    ensures all { length trail.new.came.items ≡ length trail.old.came.items }
    ensures sound { IsSound W.SwapStore kernel.new }
    ensures usable { IsUsable kernel.new }
    ensures swap { result ≡ Err MoveFault.Swap → Rose (W.faults (store_of kernel.old.mem)) (W.faults (store_of kernel.new.mem)) }
    ensures steps { result ≢ Err MoveFault.Steps }
    ensures keeps { Keeps W.SwapStore kernel.old kernel.new }
{
    kernel.event_start(event_of(orders, number));
    let Ok(()) = push_told(orders.exits, kernel.last(), trail) else {
        return Err(MoveFault::Memory);
    };
    mark(&mut trail.came, number);
    Ok(())
}

/// Plays a move that may be made.
pub fn play_move<W: SwapStore>(
    kernel: &mut Kernel<W>,
    orders: &Orders,
    next: Move,
    trail: &mut Trail,
) -> Result<(), MoveFault>
    requires sound { IsSound W.SwapStore kernel.old }
    requires usable { IsUsable kernel.old }
    requires trusted { IsTrusted W.SwapStore kernel.old }
    requires all { length trail.old.came.items ≡ length orders.now.once.items }
    requires leads { IsSome (leads (asked_of orders.now) (point_of W.SwapStore kernel.old trail.old) next) }
    ensures leads { let old = point_of W.SwapStore kernel.old trail.old in
        let new = point_of W.SwapStore kernel.new trail.new in
        OnOk result (leads (asked_of orders.now) old next ≡ Some new) }
    ensures all { length trail.new.came.items ≡ length trail.old.came.items }
    ensures sound { IsSound W.SwapStore kernel.new }
    ensures usable { OnOk result (IsUsable kernel.new) }
    ensures swap { result ≡ Err MoveFault.Swap → Rose (W.faults (store_of kernel.old.mem)) (W.faults (store_of kernel.new.mem)) }
    ensures steps { result ≡ Err MoveFault.Steps → IsNearLimit (asked_of orders.now) (point_of W.SwapStore kernel.old trail.old) }
    ensures keeps { Keeps W.SwapStore kernel.old kernel.new }
{
    match next {
        Move::Slice(who, _) => match play_thread(kernel, orders, who, trail) {
            Ok(_) => Ok(()),
            Err(fault) => Err(fault),
        },
        Move::Preempted(who, steps) => play_preempted(kernel, orders, who, steps, trail),
        Move::Once(number) => play_once(kernel, orders, number, trail),
    }
}

/// Plays an order from where a run is.
pub fn play_order<W: SwapStore>(
    kernel: &mut Kernel<W>,
    orders: &Orders,
    order: &[Move],
    trail: &mut Trail,
) -> Result<(), MoveFault>
    requires sound { IsSound W.SwapStore kernel.old }
    requires usable { IsUsable kernel.old }
    requires trusted { IsTrusted W.SwapStore kernel.old }
    requires all { length trail.old.came.items ≡ length orders.now.once.items }
    requires leads { IsSome (leads_by (asked_of orders.now) (point_of W.SwapStore kernel.old trail.old) order.now) }
    ensures leads { let old = point_of W.SwapStore kernel.old trail.old in
        let new = point_of W.SwapStore kernel.new trail.new in
        OnOk result (leads_by (asked_of orders.now) old order.now ≡ Some new) }
    ensures all { length trail.new.came.items ≡ length trail.old.came.items }
    ensures sound { IsSound W.SwapStore kernel.new }
    ensures usable { OnOk result (IsUsable kernel.new) }
    ensures swap { result ≡ Err MoveFault.Swap → Rose (W.faults (store_of kernel.old.mem)) (W.faults (store_of kernel.new.mem)) }
    ensures steps { result ≡ Err MoveFault.Steps → MeetsLimit (asked_of orders.now) (point_of W.SwapStore kernel.old trail.old) }
    ensures keeps { Keeps W.SwapStore kernel.old kernel.new }
{
    for next in order {
        play_move(kernel, orders, *next, trail)?;
    }
    Ok(())
}
