//! An image is read and planned, and its run starts: the store is prepared, and the plan is booted.

ghost use Rattle.std.specs.Option.{option_copied};
ghost use Rattle.std.specs.Prelude.{◌≡◌, ◌≤◌, ◌⊎◌, [], true, All, None, length, IfOk, IfErr, IfSome, OnOk};
ghost use Rattle.xk_base.specs.declared.limits.TheConstants.{IMAGE_LIMIT, SLOT_LIMIT};
ghost use Rattle.boot_plan.specs.FirstPages.{plan_of};
ghost use Rattle.boot_plan.specs.Lawful.{CanStart, IsLawfulPlan};
ghost use Rattle.machine_model.specs.State.Machine.{Machine};
ghost use Rattle.vm_memory.specs.Memory.{size, store_of};
ghost use Rattle.xk_base.specs.Outside.{Rose};
ghost use Rattle.xk_kernel.specs.Sound.{IsSound, IsUsable};
ghost use Rattle.xk_kernel.specs.Start.{start};
ghost use Rattle.xk_kernel.specs.State.{machine_of};
ghost use Rattle.xk_ports.specs.declared.host.FileSlot.TheVariants.{First};
ghost use Rattle.xous_program.specs.Finish.{Starts};
ghost use Rattle.event_player.specs.Gathering.{Text};
ghost use Rattle.xous_program.specs.Outcome.Images.{Refuses};
ghost use Rattle.program_status.specs.Plans.{IsSoundImage};
ghost use Rattle.xous_program.specs.Outcome.Plays.{EndsRefused, EndsUnstarted};
ghost use Rattle.xous_program.specs.Outcome.Sides.{Prepares, call_of, host_side, store_side};
ghost use Rattle.program_status.specs.Notes.{SinkSide};
ghost use Rattle.xous_program.specs.Outcome.Starts.{Stops, room_of, status_of};
ghost use Rattle.host_io.specs.Reading.{Asked, AsksFor, IsFile, IsTold};
ghost use Rattle.event_player.specs.Standing.{Begins, room_in, stand};
ghost use Rattle.xous_program.specs.Words.{play_in};

use crate::commands::command::PlayWords;
use crate::status::{Ended, Status};
use boot_plan::{BootPlan, TOO_LONG};
use host_io::{Content, ReadError, read_file};
use kernel_args::{ArgFault, Args};
use program_status::{Planned, plan_bytes};
use std::alloc::Global;
use vm_memory::{BootError, BootFault};
use xk_base::limits::IMAGE_LIMIT;
use xk_kernel::Kernel;
use xk_ports::{FileSlot, Host, StoreFault, SwapStore};

/// An image that was read, its arguments, and its plan.
#[derive(Debug, Drop)]
pub struct PlannedImage {
    pub bytes: Vec<u8>,
    pub args: Args,
    pub plan: BootPlan,
}

/// Reads the image of that name and plans it for a run that asks for these slots, or says why not.
pub fn plan_image<H: Host>(
    alloc: Global,
    host: &mut H,
    name: &str,
    asked: Option<u32>,
) -> Result<PlannedImage, Status>
    requires { IfSome asked (λ n. n ≤ SLOT_LIMIT) }
    ensures read { IfOk result (λ planned. IsFile (H.file host.old) name.now planned.bytes.items) }
    ensures image { IfOk result (λ planned. IsSoundImage planned.bytes.items asked planned.args) }
    ensures planned { IfOk result (λ planned. planned.plan ≡ plan_of planned.args asked) }
    ensures lawful { IfOk result (λ planned. IsLawfulPlan (length planned.bytes.items) planned.plan) }
    ensures can_start { IfOk result (λ planned. All CanStart planned.plan.procs) }
    ensures size { IfOk result (λ planned. length planned.bytes.items ≤ IMAGE_LIMIT) }
    ensures end { OnOk result (IsTold (H.left host.new First) []) }
    ensures refused { IfErr result (Refuses (H.file host.old) name.now asked (Rose (H.faults host.old) (H.faults host.new))) }
    ensures asks { AsksFor (H.asked host.old) (H.asked host.new) First name.now }
    ensures picked { OnOk result (Asked (H.asked host.old) (H.asked host.new) First name.now true) }
    ensures file { H.file host.new ≡ H.file host.old }
    ensures never_falls { H.faults host.old ≤ H.faults host.new }
{
    match read_file(alloc, host, FileSlot::First, name, IMAGE_LIMIT as usize) {
        Ok(Content::Whole(bytes)) => match plan_bytes(alloc, bytes.as_slice(), asked) {
            Ok(Planned { args, plan }) => Ok(PlannedImage { bytes, args, plan }),
            Err(status) => Err(status),
        },
        Ok(Content::TooLong) => Err(Status::ImageFault(ArgFault {
            what: TOO_LONG,
            at: 0,
        })),
        Err(ReadError::Fault) => Err(Status::ReadFault),
        Err(ReadError::NoMemory) => Err(Status::NoMemory),
    }
}

/// How a call ends whose kernel isn't made: `SwapFault` or `NoMemory`, with the store that comes back.
pub fn ended_of<W>(fault: BootFault<W>) -> Ended<W>
    ensures status { result.status ≡ status_of fault.why }
    ensures store { result.store ≡ fault.store }
{
    let BootFault { why, store } = fault;
    let status = match why {
        BootError::NoMemory => Status::NoMemory,
        BootError::SwapFault => Status::SwapFault,
    };
    Ended { status, store }
}

/// Prepares the store for a run of this plan, under this name if there is one, and boots the plan with the
/// bytes of its file; or says why not, `SwapFault` or `NoMemory`, and hands the store back.
pub fn start_run<W: SwapStore>(
    alloc: Global,
    plan: &BootPlan,
    file: &[u8],
    name: Option<&str>,
    store: W,
) -> Result<Kernel<W>, Ended<W>>
    requires lawful { IsLawfulPlan (length file.now) plan.now }
    requires can_start { All CanStart plan.now.procs }
    ensures begins { IfOk result (λ kernel. (text : Text) → Begins (start plan.now file.now) (stand W.SwapStore kernel text)) }
    ensures sound { IfOk result (λ kernel. IsSound W.SwapStore kernel) }
    ensures usable { IfOk result (λ kernel. IsUsable kernel) }
    ensures steps { IfOk result (λ kernel. (machine_of W.held kernel).steps ≡ 0) }
    ensures unreserved { IfOk result (λ kernel. (machine_of W.held kernel).reserved ≡ None) }
    ensures room { IfOk result (λ kernel. room_in kernel ≡ room_of plan.now) }
    ensures slots { IfOk result (λ kernel. (size kernel.mem).slots ≡ plan.now.slots) }
    ensures prepared { IfOk result (λ kernel. let side = store_side W.SwapStore store (store_of kernel.mem) in
        Prepares side plan.now.slots (option_copied name.entry) true) }
    ensures count { IfOk result (λ kernel. W.faults store ≤ W.faults (store_of kernel.mem)) }
    ensures stopped { IfErr result (λ ended. let side = store_side W.SwapStore store ended.store in
        Stops plan.now (option_copied name.entry) (start plan.now file.now) side ended.status) }
    ensures back { IfErr result (λ ended. W.faults store ≤ W.faults ended.store) }
{
    let mut store = store;
    match store.prepare(alloc, plan.slots, name) {
        Ok(()) => {}
        Err(StoreFault::Failed) => return Err(Ended {
            status: Status::SwapFault,
            store,
        }),
        Err(StoreFault::NoMemory) => return Err(Ended {
            status: Status::NoMemory,
            store,
        }),
    }
    match Kernel::boot(alloc, plan, file, store) {
        Ok(kernel) => Ok(kernel),
        Err(fault) => Err(ended_of(fault)),
    }
}

/// Reads the image of a command and starts its run, or says why not, and hands the store back then.
pub fn boot_image<H: Host, W: SwapStore>(
    alloc: Global,
    host: &mut H,
    play: PlayWords,
    store: W,
) -> Result<Kernel<W>, Ended<W>>
    ensures booted { IfOk result (λ kernel. (start : Machine)
        × ((text : Text) → Begins start (stand W.SwapStore kernel text))
        × Starts (play_in play.entry) (H.file host.old)
        (record { machine = start; room = room_in kernel; slots = (size kernel.mem).slots })
        (store_side W.SwapStore store (store_of kernel.mem))) }
    ensures sound { IfOk result (λ kernel. IsSound W.SwapStore kernel) }
    ensures usable { IfOk result (λ kernel. IsUsable kernel) }
    ensures steps { IfOk result (λ kernel. (machine_of W.held kernel).steps ≡ 0) }
    ensures count { IfOk result (λ kernel. W.faults store ≤ W.faults (store_of kernel.mem)) }
    ensures end { OnOk result (IsTold (H.left host.new First) []) }
    ensures picked { OnOk result (Asked (H.asked host.old) (H.asked host.new) First play.entry.image.now true) }
    ensures ends { (out : SinkSide) → out.written_after ≡ out.written → IfErr result (λ ended.
        let call = call_of (host_side H.Host host.old host.new) out (store_side W.SwapStore store ended.store) ended.status in
        EndsRefused (play_in play.entry) call ⊎ EndsUnstarted (play_in play.entry) call) }
    ensures back { IfErr result (λ ended. W.faults store ≤ W.faults ended.store) }
    ensures file { H.file host.new ≡ H.file host.old }
    ensures never_falls { H.faults host.old ≤ H.faults host.new }
{
    match plan_image(alloc, host, play.image, play.slots) {
        Ok(planned) => start_run(
            alloc,
            &planned.plan,
            planned.bytes.as_slice(),
            play.store,
            store,
        ),
        Err(status) => Err(Ended { status, store }),
    }
}
