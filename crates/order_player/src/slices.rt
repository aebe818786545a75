//! A slice is played on a kernel.

ghost use Rattle.std.specs.Prelude.{◌≡◌, ◌≤◌, ◌<◌, ◌+◌, Err, OnOk, IfOk};
ghost use Rattle.xk_base.specs.declared.limits.TheConstants.{STEP_LIMIT};
ghost use Rattle.xk_base.specs.Outside.{Rose};
ghost use Rattle.vm_memory.specs.Memory.{store_of};
ghost use Rattle.xk_kernel.specs.Knowing.{IsTrusted};
ghost use Rattle.xk_kernel.specs.Sound.{IsSound, IsUsable, Keeps};
ghost use Rattle.xk_kernel.specs.State.{machine_of};
ghost use Rattle.order_player.specs.Played.{IsFewer, PlaysSome, part_left, shown};
ghost use Rattle.order_player.specs.Steps.{AreSteps, IsSlice, KeepsMoves};

use crate::told::push_told;
use order_model::Trail;
use xk_base::{Event, ThreadId};
use xk_kernel::{Kernel, Stepped, SwapFault};
use xk_ports::SwapStore;

/// Why a slice wasn't played to its end.
#[derive(Clone, Copy, Debug, PartialEq, Eq)]
pub enum SliceFault {
    /// The store failed.
    Swap,
    /// There was no memory for what the records tell.
    Memory,
}

/// What came of some steps of a slice: it goes on with at most so many, or is over where so many were left.
#[derive(Clone, Copy)]
enum Part {
    On(u32),
    Over(u32),
}

/// Plays the next step of a slice of which so many are left.
fn play_loud<W: SwapStore>(
    kernel: &mut Kernel<W>,
    left: u32,
    keeps: bool,
    trail: &mut Trail,
) -> Result<Part, SliceFault>
    requires sound { IsSound W.SwapStore kernel.old }
    requires usable { IsUsable kernel.old }
    requires some { 0 < left }
    requires few { (machine_of W.held kernel.old).steps < STEP_LIMIT }
    ensures plays { IsTrusted W.SwapStore kernel.old
        → IfOk result (PlaysSome keeps left (shown W.SwapStore kernel.old trail.old) (shown W.SwapStore kernel.new trail.new)) }
    ensures fewer { IfOk result (IsFewer left) }
    ensures counts { IfOk result (λ part. part_left part + kernel.new.steps ≤ left + kernel.old.steps) }
    ensures sound { IsSound W.SwapStore kernel.new }
    ensures usable { OnOk result (IsUsable kernel.new) }
    ensures swap { result ≡ Err SliceFault.Swap → Rose (W.faults (store_of kernel.old.mem)) (W.faults (store_of kernel.new.mem)) }
    ensures moves { KeepsMoves trail.old trail.new }
    ensures keeps { Keeps W.SwapStore kernel.old kernel.new }
{
    match kernel.step() {
        Ok(Stepped::Did) => {}
        Ok(Stepped::Idle) => return Ok(Part::Over(left)),
        Err(SwapFault) => return Err(SliceFault::Swap),
    }
    let Ok(()) = push_told(keeps, kernel.last(), trail) else {
        return Err(SliceFault::Memory);
    };
    if kernel.last().is_empty() {
        return Ok(Part::On(left - 1));
    }
    Ok(Part::Over(left - 1))
}

/// Plays quiet steps, and then one that isn't quiet.
fn play_some<W: SwapStore>(
    kernel: &mut Kernel<W>,
    most: u32,
    keeps: bool,
    trail: &mut Trail,
) -> Result<Part, SliceFault>
    requires sound { IsSound W.SwapStore kernel.old }
    requires usable { IsUsable kernel.old }
    requires some { 0 < most }
    requires few { (machine_of W.held kernel.old).steps + most ≤ STEP_LIMIT }
    ensures plays { IsTrusted W.SwapStore kernel.old
        → IfOk result (PlaysSome keeps most (shown W.SwapStore kernel.old trail.old) (shown W.SwapStore kernel.new trail.new)) }
    ensures fewer { IfOk result (IsFewer most) }
    ensures counts { IfOk result (λ part. part_left part + kernel.new.steps ≤ most + kernel.old.steps) }
    ensures sound { IsSound W.SwapStore kernel.new }
    ensures usable { OnOk result (IsUsable kernel.new) }
    ensures swap { result ≡ Err SliceFault.Swap → Rose (W.faults (store_of kernel.old.mem)) (W.faults (store_of kernel.new.mem)) }
    ensures moves { KeepsMoves trail.old trail.new }
    ensures keeps { Keeps W.SwapStore kernel.old kernel.new }
{
    let Ok(quiet) = kernel.run_quiet(most) else {
        return Err(SliceFault::Swap);
    };
    if quiet == most {
        return Ok(Part::Over(0));
    }
    play_loud(kernel, most - quiet, keeps, trail)
}

/// Plays the steps of a slice, and answers how many of at most so many weren't done.
fn play_steps<W: SwapStore>(
    kernel: &mut Kernel<W>,
    most: u32,
    keeps: bool,
    trail: &mut Trail,
) -> Result<u32, SliceFault>
    requires sound { IsSound W.SwapStore kernel.old }
    requires usable { IsUsable kernel.old }
    requires few { (machine_of W.held kernel.old).steps + most ≤ STEP_LIMIT }
    ensures plays { IsTrusted W.SwapStore kernel.old
        → IfOk result (λ left. AreSteps keeps most (shown W.SwapStore kernel.old trail.old) left (shown W.SwapStore kernel.new trail.new)) }
    ensures fewer { IfOk result (λ left. left ≤ most) }
    ensures sound { IsSound W.SwapStore kernel.new }
    ensures usable { OnOk result (IsUsable kernel.new) }
    ensures swap { result ≡ Err SliceFault.Swap → Rose (W.faults (store_of kernel.old.mem)) (W.faults (store_of kernel.new.mem)) }
    ensures moves { KeepsMoves trail.old trail.new }
    ensures keeps { Keeps W.SwapStore kernel.old kernel.new }
{
    let mut left = most;
    'steps: while left > 0 {
        match play_some(kernel, left, keeps, trail)? {
            Part::On(rest) => left = rest,
            Part::Over(rest) => return Ok(rest),
        }
    }
    Ok(0)
}

/// Plays the slice of a thread: it is picked, and does steps up to the first that leaves a record, at most so many; then its turn ends.
/// What its records tell is put behind what was told before. Answers how many steps the slice has.
pub fn play_slice<W: SwapStore>(
    kernel: &mut Kernel<W>,
    who: ThreadId,
    quantum: u32,
    keeps: bool,
    trail: &mut Trail,
) -> Result<u32, SliceFault>
    requires sound { IsSound W.SwapStore kernel.old }
    requires usable { IsUsable kernel.old }
    requires few { (machine_of W.held kernel.old).steps + quantum ≤ STEP_LIMIT }
    ensures plays { IsTrusted W.SwapStore kernel.old
        → IfOk result (λ steps. IsSlice keeps quantum who (shown W.SwapStore kernel.old trail.old) steps
        (shown W.SwapStore kernel.new trail.new)) }
    ensures sound { IsSound W.SwapStore kernel.new }
    ensures usable { OnOk result (IsUsable kernel.new) }
    ensures swap { result ≡ Err SliceFault.Swap → Rose (W.faults (store_of kernel.old.mem)) (W.faults (store_of kernel.new.mem)) }
    ensures moves { KeepsMoves trail.old trail.new }
    ensures keeps { Keeps W.SwapStore kernel.old kernel.new }
{
    kernel.event_start(Event::Pick(who.pid, who.tid));
    let left = play_steps(kernel, quantum, keeps, trail)?;
    kernel.end_turn();
    Ok(quantum - left)
}
