//! `suspend`: the events of a file are played on an image, and the last state is written.

ghost use Rattle.std.specs.Prelude.{◌≡◌, ◌≤◌, ◌⊎◌, [], true, None, IfOk, IfErr, OnOk};
ghost use Rattle.xk_base.specs.declared.limits.TheConstants.{STEP_LIMIT};
ghost use Rattle.machine_model.specs.State.Machine.{Machine};
ghost use Rattle.suspend_image.specs.Sheets.{room_for};
ghost use Rattle.vm_memory.specs.Bytes.{MeansBytes, none_out};
ghost use Rattle.vm_memory.specs.Memory.{size, store_of};
ghost use Rattle.xk_kernel.specs.Sound.{IsSound, IsUsable, Keeps};
ghost use Rattle.xk_kernel.specs.State.{machine_of};
ghost use Rattle.xk_ports.specs.declared.host.FileSlot.TheVariants.{First};
ghost use Rattle.xous_program.specs.Finish.{EndsSilently, HasSaveCause, SavesState, Starts};
ghost use Rattle.event_player.specs.Gathering.{Text, put};
ghost use Rattle.xous_program.specs.Outcome.InRam.{EndsRun, PlaysInRam, RunsInRam};
ghost use Rattle.xous_program.specs.Outcome.Plays.{EndsRefused, EndsUnstarted};
ghost use Rattle.xous_program.specs.Outcome.Sides.{call_of, host_side, store_side};
ghost use Rattle.program_status.specs.Notes.{SinkSide, sink_side};
ghost use Rattle.xous_program.specs.Outcome.Starts.{Booted};
ghost use Rattle.xous_program.specs.Outcome.Suspends.{EndsSuspend, silent};
ghost use Rattle.host_io.specs.Reading.{Asked, IsTold};
ghost use Rattle.machine_laws.specs.Reserved.{IsReservedByThread};
ghost use Rattle.event_player.specs.Standing.{Begins, room_in, stand};
ghost use Rattle.xous_program.specs.Words.{Suspends, suspend_in};

use crate::commands::booting::{plan_image, start_run};
use crate::commands::command::SuspendWords;
use crate::status::{Ended, Status};
use boot_plan::cap;
use event_player::{Ending, RunFault, Telling, play_file};
use std::alloc::Global;
use suspend_image::Sheet;
use xk_base::NoMemory;
use xk_kernel::Kernel;
use xk_ports::{FileSlot, Host, Sink, SwapStore, put_all};

/// Reads the image of a command, starts its run and takes the sheet for the run's last state, or says why
/// not, and hands the store back then.
fn boot_with_sheet<H: Host, W: SwapStore>(
    alloc: Global,
    host: &mut H,
    suspend: SuspendWords,
    store: W,
) -> Result<(Kernel<W>, Sheet), Ended<W>>
    ensures booted { IfOk result (λ run. (start : Machine)
        × ((text : Text) → Begins start (stand W.SwapStore run.0 text))
        × Starts (silent (suspend_in suspend.entry)) (H.file host.old)
        (record { machine = start; room = room_in run.0; slots = (size run.0.mem).slots })
        (store_side W.SwapStore store (store_of run.0.mem))) }
    ensures sound { IfOk result (λ run. IsSound W.SwapStore run.0) }
    ensures usable { IfOk result (λ run. IsUsable run.0) }
    ensures steps { IfOk result (λ run. (machine_of W.held run.0).steps ≡ 0) }
    ensures unreserved { IfOk result (λ run. (machine_of W.held run.0).reserved ≡ None) }
    ensures sheet { IfOk result (λ run. let m = machine_of W.held run.0 in room_for m.processes m.capacity ≤ run.1.room) }
    ensures count { IfOk result (λ run. W.faults store ≤ W.faults (store_of run.0.mem)) }
    ensures end { OnOk result (IsTold (H.left host.new First) []) }
    ensures picked { OnOk result (Asked (H.asked host.old) (H.asked host.new) First suspend.entry.image.now true) }
    ensures ends { (out : SinkSide) → out.written_after ≡ out.written → IfErr result (λ ended.
        let call = call_of (host_side H.Host host.old host.new) out (store_side W.SwapStore store ended.store) ended.status in
        let play = silent (suspend_in suspend.entry) in EndsRefused play call ⊎ EndsUnstarted play call) }
    ensures back { IfErr result (λ ended. W.faults store ≤ W.faults ended.store) }
    ensures file { H.file host.new ≡ H.file host.old }
    ensures never_falls { H.faults host.old ≤ H.faults host.new }
{
    let planned = match plan_image(alloc, host, suspend.image, suspend.slots) {
        Ok(planned) => planned,
        Err(status) => return Err(Ended { status, store }),
    };
    let plan = &planned.plan;
    let kernel = start_run(alloc, plan, planned.bytes.as_slice(), None, store)?;
    match Sheet::new(alloc, plan.procs.as_slice().len() as u32, cap(plan)) {
        Ok(sheet) => Ok((kernel, sheet)),
        Err(NoMemory) => Err(Ended {
            status: Status::NoMemory,
            store: kernel.close(),
        }),
    }
}

/// Saves the state of the machine and writes its bytes, and gives the status.
fn save_state<K: Sink, W: SwapStore>(
    kernel: &mut Kernel<W>,
    sheet: &mut Sheet,
    out: &mut K,
) -> Status
    requires sound { IsSound W.SwapStore kernel.old }
    requires usable { IsUsable kernel.old }
    requires within { (machine_of W.held kernel.old).steps ≤ STEP_LIMIT }
    requires room { let m = machine_of W.held kernel.old in room_for m.processes m.capacity ≤ sheet.old.room }
    ensures stays { EndsRun result → IsUsable kernel.new
        × (MeansBytes W.SwapStore kernel.old.mem → machine_of W.held kernel.new ≡ machine_of W.held kernel.old) }
    ensures saved { MeansBytes W.SwapStore kernel.old.mem → IsReservedByThread (machine_of W.held kernel.old)
        → SavesState (machine_of W.held kernel.old) (sink_side K.Sink out.old out.new) result }
    ensures cause { HasSaveCause (none_out kernel.old.mem) (sink_side K.Sink out.old out.new)
        (store_side W.SwapStore (store_of kernel.old.mem) (store_of kernel.new.mem)) result }
    ensures sound { IsSound W.SwapStore kernel.new }
    ensures keeps { Keeps W.SwapStore kernel.old kernel.new }
    ensures never_falls { K.faults out.old ≤ K.faults out.new }
{
    let Ok(()) = kernel.save(sheet) else {
        return Status::SwapFault;
    };
    match put_all(out, sheet.as_slice()) {
        Ok(()) => Status::Done,
        Err(_) => Status::WriteFault,
    }
}

/// Picks the event file, plays its events on a booted kernel, and saves the last state.
fn suspend_events<H: Host, K: Sink, W: SwapStore>(
    kernel: &mut Kernel<W>,
    sheet: &mut Sheet,
    host: &mut H,
    suspend: SuspendWords,
    out: &mut K,
) -> Status
    requires sound { IsSound W.SwapStore kernel.old }
    requires usable { IsUsable kernel.old }
    requires within { (machine_of W.held kernel.old).steps ≤ suspend.limit }
    requires unreserved { (machine_of W.held kernel.old).reserved ≡ None }
    requires room { let m = machine_of W.held kernel.old in room_for m.processes m.capacity ≤ sheet.old.room }
    ensures played { (start : Machine) → Begins start (stand W.SwapStore kernel.old (put (K.written out.old))) →
        let booted : Booted = record {
          machine = start;
          room = room_in kernel.old;
          slots = (size kernel.old.mem).slots;
        } in let call = call_of (host_side H.Host host.old host.new) (sink_side K.Sink out.old out.new)
        (store_side W.SwapStore (store_of kernel.old.mem) (store_of kernel.new.mem)) result in
        EndsSilently (suspend_in suspend.entry) booted call }
    ensures in_ram { (start : Machine) → Begins start (stand W.SwapStore kernel.old (put (K.written out.old))) →
        let booted : Booted = record {
          machine = start;
          room = room_in kernel.old;
          slots = (size kernel.old.mem).slots;
        } in let store = store_of kernel.new.mem in
        PlaysInRam W.SwapStore (silent (suspend_in suspend.entry)) booted (H.file host.old)
        (store_side W.SwapStore (store_of kernel.old.mem) store) store result }
    ensures sound { IsSound W.SwapStore kernel.new }
    ensures keeps { Keeps W.SwapStore kernel.old kernel.new }
    ensures first { H.left host.new First ≡ H.left host.old First }
    ensures host { H.faults host.old ≤ H.faults host.new }
    ensures out { K.faults out.old ≤ K.faults out.new }
{
    let Ok(()) = host.pick_file(FileSlot::Second, suspend.events) else {
        return Status::ReadFault;
    };
    match play_file(kernel, host, Telling::Nothing, suspend.limit, out) {
        Ok(Ending::Played) => save_state(kernel, sheet, out),
        Ok(Ending::LimitMet) => Status::StepLimit(suspend.limit),
        Ok(Ending::BadLine(line)) => Status::EventFault(line),
        Err(RunFault::Read) => Status::ReadFault,
        Err(RunFault::Write) => Status::WriteFault,
        Err(RunFault::Swap) => Status::SwapFault,
    }
}

/// Plays the events of a file on an image, writes the bytes of the last state, and hands the store back.
pub fn suspend_run<H: Host, K: Sink, W: SwapStore>(
    alloc: Global,
    suspend: SuspendWords,
    host: &mut H,
    out: &mut K,
    store: W,
) -> Ended<W>
    ensures ends { let call = call_of (host_side H.Host host.old host.new) (sink_side K.Sink out.old out.new)
        (store_side W.SwapStore store result.store) result.status in EndsSuspend (suspend_in suspend.entry) call }
    ensures in_ram { let call = call_of (host_side H.Host host.old host.new) (sink_side K.Sink out.old out.new)
        (store_side W.SwapStore store result.store) result.status in
        RunsInRam W.SwapStore (Suspends (suspend_in suspend.entry)) call result.store }
    ensures store { W.faults store ≤ W.faults result.store }
    ensures host { H.faults host.old ≤ H.faults host.new }
    ensures out { K.faults out.old ≤ K.faults out.new }
{
    match boot_with_sheet(alloc, host, suspend, store) {
        Ok((mut kernel, mut sheet)) => {
            let status = suspend_events(&mut kernel, &mut sheet, host, suspend, out);
            Ended {
                status,
                store: kernel.close(),
            }
        }
        Err(ended) => ended,
    }
}
