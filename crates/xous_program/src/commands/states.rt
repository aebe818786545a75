//! A state file is read, and its run goes on: the store is prepared, and the state is resumed.

ghost use Rattle.std.specs.Prelude.{◌≡◌, ◌≤◌, ◌⊎◌, [], true, false, length, IfOk, IfErr, OnOk, None};
ghost use Rattle.xous_program.specs.declared.commands.states.TheConstants.{STATE_LIMIT};
ghost use Rattle.xk_base.specs.declared.limits.TheConstants.{PROCESS_LIMIT, SLOT_LIMIT, STEP_LIMIT};
ghost use Rattle.machine_model.specs.State.Machine.{Machine};
ghost use Rattle.snapshot_rows.specs.Machines.{machine_of as machine_in};
ghost use Rattle.vm_memory.specs.Memory.{size, store_of};
ghost use Rattle.xk_base.specs.Outside.{Rose};
ghost use Rattle.resume_path.specs.Resumable.{CanSplit};
ghost use Rattle.xk_kernel.specs.Sound.{IsSound, IsUsable};
ghost use Rattle.xk_kernel.specs.State.{machine_of};
ghost use Rattle.xk_ports.specs.declared.host.FileSlot.TheVariants.{First};
ghost use Rattle.xous_program.specs.Finish.{Continues};
ghost use Rattle.event_player.specs.Gathering.{Text};
ghost use Rattle.xous_program.specs.Outcome.Resumes.{EndsUnread, EndsUnresumed};
ghost use Rattle.xous_program.specs.Outcome.Sides.{Prepares, call_of, host_side, store_side};
ghost use Rattle.program_status.specs.Notes.{SinkSide};
ghost use Rattle.xous_program.specs.Outcome.Starts.{StopsIn};
ghost use Rattle.xous_program.specs.Outcome.States.{RefusesState, RefusesStateBytes, room_from};
ghost use Rattle.host_io.specs.Reading.{Asked, AsksFor, IsFile, IsTold};
ghost use Rattle.event_player.specs.Standing.{Begins, room_in, stand};
ghost use Rattle.xous_program.specs.StateFiles.{IsBadSplit, IsSoundState};
ghost use Rattle.xous_program.specs.Words.{resume_in};

use crate::commands::booting::ended_of;
use crate::commands::command::ResumeWords;
use crate::status::{Ended, Status};
use boot_plan::TOO_LONG;
use host_io::{Content, ReadError, read_file};
use kernel_args::ArgFault;
use program_status::BAD_SPLIT;
use std::alloc::Global;
use suspend_image::{State, StateError, read_state};
use xk_base::limits::{FRAME_LIMIT, TABLE_FRAMES};
use xk_kernel::Kernel;
use xk_ports::{FileSlot, Host, StoreFault, SwapStore};

/// The most bytes of a state file.
pub const STATE_LIMIT: u32 = 167_772_160;

/// Whether the pages that there may be can be split into these slots and the frames of a RAM.
fn can_split(state: &State, slots: u32) -> bool
    requires processes { state.now.n ≤ PROCESS_LIMIT }
    requires few { slots ≤ SLOT_LIMIT }
    ensures split { result ≡ true → CanSplit state.now slots }
    ensures bad { result ≡ false → IsBadSplit state.now slots }
{
    slots < state.cap && state.cap - slots <= FRAME_LIMIT - 1 - TABLE_FRAMES * state.n
}

/// Reads the state that these bytes spell, for a run of so many slots, or says why not: `ImageFault` or
/// `NoMemory`.
fn state_of_bytes(alloc: Global, bytes: &[u8], slots: u32) -> Result<State, Status>
    requires size { length bytes.now ≤ STATE_LIMIT }
    requires few { slots ≤ SLOT_LIMIT }
    ensures sound { IfOk result (IsSoundState bytes.now slots) }
    ensures refused { IfErr result (RefusesStateBytes bytes.now slots) }
{
    let state = match read_state(alloc, bytes) {
        Ok(state) => state,
        Err(StateError::Fault(fault)) => return Err(Status::ImageFault(fault)),
        Err(StateError::NoMemory) => return Err(Status::NoMemory),
    };
    if can_split(&state, slots) {
        Ok(state)
    } else {
        Err(Status::ImageFault(ArgFault {
            what: BAD_SPLIT,
            at: 0,
        }))
    }
}

/// A state file that was read, and the state that it spells.
#[derive(Debug, Drop)]
pub struct Saved {
    pub bytes: Vec<u8>,
    pub state: State,
}

/// Reads the state file of that name for a run of so many slots, or says why not.
pub fn read_state_file<H: Host>(
    alloc: Global,
    host: &mut H,
    name: &str,
    slots: u32,
) -> Result<Saved, Status>
    requires { slots ≤ SLOT_LIMIT }
    ensures read { IfOk result (λ saved. IsFile (H.file host.old) name.now saved.bytes.items) }
    ensures sound { IfOk result (λ saved. IsSoundState saved.bytes.items slots saved.state) }
    ensures end { OnOk result (IsTold (H.left host.new First) []) }
    ensures refused { IfErr result (RefusesState (H.file host.old) name.now slots (Rose (H.faults host.old) (H.faults host.new))) }
    ensures asks { AsksFor (H.asked host.old) (H.asked host.new) First name.now }
    ensures picked { OnOk result (Asked (H.asked host.old) (H.asked host.new) First name.now true) }
    ensures file { H.file host.new ≡ H.file host.old }
    ensures never_falls { H.faults host.old ≤ H.faults host.new }
{
    match read_file(alloc, host, FileSlot::First, name, STATE_LIMIT as usize) {
        Ok(Content::Whole(bytes)) => match state_of_bytes(alloc, bytes.as_slice(), slots) {
            Ok(state) => Ok(Saved { bytes, state }),
            Err(status) => Err(status),
        },
        Ok(Content::TooLong) => Err(Status::ImageFault(ArgFault {
            what: TOO_LONG,
            at: 0,
        })),
        Err(ReadError::Fault) => Err(Status::ReadFault),
        Err(ReadError::NoMemory) => Err(Status::NoMemory),
    }
}

/// Prepares the store for a run of so many slots that goes on from the state of this file, and resumes
/// it; or says why not, `SwapFault` or `NoMemory`, and hands the store back.
pub fn resume_state<W: SwapStore>(
    alloc: Global,
    state: &State,
    file: &[u8],
    slots: u32,
    store: W,
) -> Result<Kernel<W>, Ended<W>>
    requires sound { IsSoundState file.now slots state.now }
    ensures begins { IfOk result (λ kernel. (text : Text) → Begins (machine_in file.now state.now) (stand W.SwapStore kernel text)) }
    ensures sound { IfOk result (λ kernel. IsSound W.SwapStore kernel) }
    ensures usable { IfOk result (λ kernel. IsUsable kernel) }
    ensures steps { IfOk result (λ kernel. (machine_of W.held kernel).steps ≡ state.now.steps) }
    ensures room { IfOk result (λ kernel. room_in kernel ≡ room_from (machine_in file.now state.now) slots) }
    ensures slots { IfOk result (λ kernel. (size kernel.mem).slots ≡ slots) }
    ensures prepared { IfOk result (λ kernel. let side = store_side W.SwapStore store (store_of kernel.mem) in
        Prepares side slots None true) }
    ensures count { IfOk result (λ kernel. W.faults store ≤ W.faults (store_of kernel.mem)) }
    ensures stopped { IfErr result (λ ended. let side = store_side W.SwapStore store ended.store in
        let machine = machine_in file.now state.now in StopsIn (room_from machine slots) slots None machine side ended.status) }
    ensures back { IfErr result (λ ended. W.faults store ≤ W.faults ended.store) }
{
    let mut store = store;
    match store.prepare(alloc, slots, None) {
        Ok(()) => {}
        Err(StoreFault::Failed) => return Err(Ended {
            status: Status::SwapFault,
            store,
        }),
        Err(StoreFault::NoMemory) => return Err(Ended {
            status: Status::NoMemory,
            store,
        }),
    }
    match Kernel::resume(alloc, state, file, slots, store) {
        Ok(kernel) => Ok(kernel),
        Err(fault) => Err(ended_of(fault)),
    }
}

/// Reads the state file of a command and resumes its run, or says why not, and hands the store back
/// then.
pub fn continue_run<H: Host, W: SwapStore>(
    alloc: Global,
    host: &mut H,
    resume: ResumeWords,
    store: W,
) -> Result<Kernel<W>, Ended<W>>
    ensures resumed { IfOk result (λ kernel. (machine : Machine)
        × ((text : Text) → Begins machine (stand W.SwapStore kernel text))
        × ((machine_of W.held kernel).steps ≡ machine.steps)
        × Continues (resume_in resume.entry) (H.file host.old)
        (record { machine = machine; room = room_in kernel; slots = (size kernel.mem).slots })
        (store_side W.SwapStore store (store_of kernel.mem))) }
    ensures sound { IfOk result (λ kernel. IsSound W.SwapStore kernel) }
    ensures usable { IfOk result (λ kernel. IsUsable kernel) }
    ensures few { IfOk result (λ kernel. (machine_of W.held kernel).steps ≤ STEP_LIMIT) }
    ensures count { IfOk result (λ kernel. W.faults store ≤ W.faults (store_of kernel.mem)) }
    ensures end { OnOk result (IsTold (H.left host.new First) []) }
    ensures picked { OnOk result (Asked (H.asked host.old) (H.asked host.new) First resume.entry.state.now true) }
    ensures ends { (out : SinkSide) → out.written_after ≡ out.written → IfErr result (λ ended.
        let call = call_of (host_side H.Host host.old host.new) out (store_side W.SwapStore store ended.store) ended.status in
        EndsUnread (resume_in resume.entry) call ⊎ EndsUnresumed (resume_in resume.entry) call) }
    ensures back { IfErr result (λ ended. W.faults store ≤ W.faults ended.store) }
    ensures file { H.file host.new ≡ H.file host.old }
    ensures never_falls { H.faults host.old ≤ H.faults host.new }
{
    match read_state_file(alloc, host, resume.state, resume.slots) {
        Ok(saved) => resume_state(
            alloc,
            &saved.state,
            saved.bytes.as_slice(),
            resume.slots,
            store,
        ),
        Err(status) => Err(Ended { status, store }),
    }
}
