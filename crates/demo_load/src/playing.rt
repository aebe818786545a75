//! The events of the load are played, and their records counted.

ghost use Rattle.std.specs.Prelude.{◌≡◌, ◌<◌, ◌≤◌, ◌+◌, ◌*◌, ◌++◌, List, IfOk, OnErr, OnOk};
ghost use Rattle.xk_base.specs.declared.events.Event.TheVariants.{Tick};
ghost use Rattle.vm_memory.specs.Memory.{size, store_of};
ghost use Rattle.xk_base.specs.Outside.{Rose};
ghost use Rattle.xk_base.specs.declared.limits.TheConstants.{DEFAULT_STEPS};
ghost use Rattle.xk_base.specs.declared.records.Rec.{Rec as Record};
ghost use Rattle.machine_laws.specs.History.{history, play};
ghost use Rattle.machine_laws.specs.HistoryMoments.{event_moments, moments_of};
ghost use Rattle.xk_kernel.specs.Moments.{Stood, Throughout};
ghost use Rattle.xk_kernel.specs.Sound.{IsSound, IsUsable, Keeps};
ghost use Rattle.xk_kernel.specs.State.{machine_of};
ghost use Rattle.demo_load.specs.Events.{load_events, most_steps, tick_at};
ghost use Rattle.demo_load.specs.Totals.{IsWithin, totals_of};
ghost use Rattle.event_player.specs.Rooms.{ComesFull};
ghost use Rattle.event_player.specs.Standing.{room_in};
ghost use Rattle.demo_load.specs.declared.TheConstants.{CLIENT_LIMIT};

use crate::totals::Totals;
use xk_kernel::{Kernel, Stepped, SwapFault};
use xk_ports::SwapStore;

/// The steps of the tick at this place, counted from 0.
fn tick_at(i: u32) -> u32
    requires { i < 1000 * CLIENT_LIMIT }
    ensures { result ≡ tick_at i }
{
    1 + 7 * i % 13
}

/// Plays a tick of at most so many steps on a kernel without slots, and counts its records.
fn play_tick<W: SwapStore>(
    kernel: &mut Kernel<W>,
    count: u32,
    totals: &mut Totals,
) -> Result<(), SwapFault>
    requires sound { IsSound W.SwapStore kernel.old }
    requires usable { IsUsable kernel.old }
    requires slots { (size kernel.old.mem).slots ≡ 0 }
    requires room { (machine_of W.held kernel.old).steps + count ≤ most_steps }
    requires within { IsWithin (machine_of W.held kernel.old).steps totals.old }
    ensures counted { let tick = play (Tick count) DEFAULT_STEPS (machine_of W.held kernel.old) in
        OnOk result ((before : List Record) → totals.old ≡ totals_of before → totals.new ≡ totals_of (before ++ tick.records)) }
    ensures machine { let tick = play (Tick count) DEFAULT_STEPS (machine_of W.held kernel.old) in
        OnOk result (machine_of W.held kernel.new ≡ tick.machine) }
    ensures stood { let start = machine_of W.held kernel.old in
        OnOk result (Throughout (Stood W.SwapStore kernel.old) start (event_moments (Tick count) DEFAULT_STEPS start)) }
    ensures within { OnOk result (IsWithin (machine_of W.held kernel.new).steps totals.new) }
    ensures sound { IsSound W.SwapStore kernel.new }
    ensures usable { OnOk result (IsUsable kernel.new) }
    ensures keeps { Keeps W.SwapStore kernel.old kernel.new }
    ensures full { let start = machine_of W.held kernel.old in
        OnErr result (ComesFull (room_in kernel.old) start (event_moments (Tick count) DEFAULT_STEPS start)) }
    ensures cause { OnErr result (Rose (W.faults (store_of kernel.old.mem)) (W.faults (store_of kernel.new.mem))) }
{
    'steps: for done in 0..count {
        match kernel.step() {
            Ok(Stepped::Did) => {}
            Ok(Stepped::Idle) => {
                kernel.end_turn();
                return Ok(());
            }
            Err(SwapFault) => return Err(SwapFault),
        }
        totals.count_all(kernel.last());
    }
    kernel.end_turn();
    Ok(())
}

/// Plays the events of the load of so many clients on a kernel that was booted without slots, and counts their records. They
/// don't meet the step limit of a call that names none.
pub fn play_load<W: SwapStore>(kernel: &mut Kernel<W>, clients: u32) -> Result<Totals, SwapFault>
    requires sound { IsSound W.SwapStore kernel.old }
    requires usable { IsUsable kernel.old }
    requires slots { (size kernel.old.mem).slots ≡ 0 }
    requires start { (machine_of W.held kernel.old).steps ≡ 0 }
    requires few { clients ≤ CLIENT_LIMIT }
    ensures counted { let played = history (load_events clients) DEFAULT_STEPS (machine_of W.held kernel.old) in
        IfOk result (λ totals. totals ≡ totals_of played.records) }
    ensures machine { let played = history (load_events clients) DEFAULT_STEPS (machine_of W.held kernel.old) in
        OnOk result (machine_of W.held kernel.new ≡ played.machine) }
    // For each of its states there was a kernel.
    ensures stood { let start = machine_of W.held kernel.old in
        OnOk result (Throughout (Stood W.SwapStore kernel.old) start (moments_of (load_events clients) DEFAULT_STEPS start)) }
    ensures sound { IsSound W.SwapStore kernel.new }
    ensures usable { OnOk result (IsUsable kernel.new) }
    ensures keeps { Keeps W.SwapStore kernel.old kernel.new }
    ensures full { let start = machine_of W.held kernel.old in
        OnErr result (ComesFull (room_in kernel.old) start (moments_of (load_events clients) DEFAULT_STEPS start)) }
    ensures cause { OnErr result (Rose (W.faults (store_of kernel.old.mem)) (W.faults (store_of kernel.new.mem))) }
{
    let mut totals = Totals::new();
    'events: for i in 0..1000 * clients {
        let Ok(()) = play_tick(kernel, tick_at(i), &mut totals) else {
            return Err(SwapFault);
        };
    }
    Ok(totals)
}
