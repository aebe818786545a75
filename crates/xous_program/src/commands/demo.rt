//! `demo`: the load of so many clients is made and played, and summed up in a line.

ghost use Rattle.std.specs.Prelude.{◌≡◌, ◌≤◌, ◌⊎◌, true, All, IfErr, IfOk, None, length};
ghost use Rattle.boot_plan.specs.Lawful.{CanStart, IsLawfulPlan};
ghost use Rattle.vm_memory.specs.Memory.{size, store_of};
ghost use Rattle.xk_base.specs.Outside.{Rose};
ghost use Rattle.xk_kernel.specs.Sound.{IsSound, IsUsable};
ghost use Rattle.xk_kernel.specs.State.{machine_of};
ghost use Rattle.xk_ports.specs.Told.{Grows, GrowsByProperPrefix};
ghost use Rattle.demo_load.specs.Events.{load_machine, load_plan};
ghost use Rattle.demo_load.specs.Image.{load_image};
ghost use Rattle.demo_load.specs.Totals.{demo_line};
ghost use Rattle.xous_program.specs.Outcome.Demo.{Demonstrates};
ghost use Rattle.xous_program.specs.Outcome.InRam.{HadKernels};
ghost use Rattle.xous_program.specs.Outcome.Said.{load_run};
ghost use Rattle.xous_program.specs.Outcome.Sides.{Prepares, store_side};
ghost use Rattle.program_status.specs.Notes.{sink_side};
ghost use Rattle.xous_program.specs.Outcome.Starts.{Stops, room_of};
ghost use Rattle.event_player.specs.Standing.{room_in};
ghost use Rattle.program_status.specs.declared.status.Status.TheVariants.{Done, WriteFault};
ghost use Rattle.demo_load.specs.declared.TheConstants.{CLIENT_LIMIT};

use crate::commands::booting::start_run;
use crate::commands::command::DemoWords;
use crate::status::{Ended, Status};
use boot_plan::{BootPlan, PlanError, plan};
use demo_load::{Totals, demo_line, load_image, play_load};
use std::alloc::Global;
use xk_base::{NoMemory, Row};
use xk_kernel::{Kernel, SwapFault};
use xk_ports::{Sink, SwapStore, put_all};

/// The image of a load, and its plan.
#[derive(Debug, Drop)]
struct PlannedLoad {
    image: Row<u8>,
    plan: BootPlan,
}

/// Makes the image of the load of so many clients, and plans it.
fn plan_load(alloc: Global, clients: u32) -> Result<PlannedLoad, NoMemory>
    requires { clients ≤ CLIENT_LIMIT }
    ensures image { IfOk result (λ load. load.image ≡ load_image clients) }
    ensures planned { IfOk result (λ load. load.plan ≡ load_plan clients) }
    ensures lawful { IfOk result (λ load. IsLawfulPlan (length load.image) load.plan) }
    ensures can_start { IfOk result (λ load. All CanStart load.plan.procs) }
{
    let (args, image) = load_image(alloc, clients)?;
    match plan(alloc, &args, image.as_slice(), None) {
        Ok(plan) => Ok(PlannedLoad { image, plan }),
        Err(PlanError::NoMemory) => Err(NoMemory),
        // The image of a load has no fault.
        Err(PlanError::Fault(_)) => unreachable!(),
    }
}

/// Starts the run of the load of so many clients, or says why not and hands the store back.
fn boot_load<W: SwapStore>(alloc: Global, clients: u32, store: W) -> Result<Kernel<W>, Ended<W>>
    requires { clients ≤ CLIENT_LIMIT }
    ensures booted { IfOk result (λ kernel. machine_of W.held kernel ≡ load_machine clients) }
    ensures sound { IfOk result (λ kernel. IsSound W.SwapStore kernel) }
    ensures usable { IfOk result (λ kernel. IsUsable kernel) }
    ensures steps { IfOk result (λ kernel. (machine_of W.held kernel).steps ≡ 0) }
    ensures slots { IfOk result (λ kernel. (size kernel.mem).slots ≡ 0) }
    ensures room { IfOk result (λ kernel. room_in kernel ≡ room_of (load_plan clients)) }
    ensures prepared { IfOk result (λ kernel. let side = store_side W.SwapStore store (store_of kernel.mem) in
        Prepares side 0 None true) }
    ensures count { IfOk result (λ kernel. W.faults store ≤ W.faults (store_of kernel.mem)) }
    ensures stopped { IfErr result (λ ended. let side = store_side W.SwapStore store ended.store in
        Stops (load_plan clients) None (load_machine clients) side ended.status) }
    ensures back { IfErr result (λ ended. W.faults store ≤ W.faults ended.store) }
{
    match plan_load(alloc, clients) {
        Ok(load) => start_run(alloc, &load.plan, load.image.as_slice(), None, store),
        Err(NoMemory) => Err(Ended {
            status: Status::NoMemory,
            store,
        }),
    }
}

/// Writes the line that sums up a load.
fn write_totals<K: Sink>(clients: u32, totals: Totals, out: &mut K) -> Status
    ensures ended { (result ≡ Done) ⊎ (result ≡ WriteFault) }
    ensures written { result ≡ Done → Grows (K.written out.old) (K.written out.new) (demo_line clients totals) }
    ensures front { result ≡ WriteFault → GrowsByProperPrefix (K.written out.old) (K.written out.new) (demo_line clients totals) }
    ensures cause { result ≡ WriteFault → Rose (K.faults out.old) (K.faults out.new) }
    ensures never_falls { K.faults out.old ≤ K.faults out.new }
{
    match put_all(out, demo_line(clients, totals).as_slice()) {
        Ok(()) => Status::Done,
        Err(_) => Status::WriteFault,
    }
}

/// Plays the load of so many clients, writes its line, and hands the store back.
pub fn play_demo<K: Sink, W: SwapStore>(
    alloc: Global,
    demo: DemoWords,
    out: &mut K,
    store: W,
) -> Ended<W>
    ensures told { Demonstrates demo.clients (sink_side K.Sink out.old out.new)
        (store_side W.SwapStore store result.store) result.status }
    ensures in_ram { result.status ≡ Done → HadKernels W.SwapStore (load_run demo.clients) result.store }
    ensures cause { result.status ≡ WriteFault → Rose (K.faults out.old) (K.faults out.new) }
    ensures store { W.faults store ≤ W.faults result.store }
    ensures never_falls { K.faults out.old ≤ K.faults out.new }
{
    let mut kernel = match boot_load(alloc, demo.clients, store) {
        Ok(kernel) => kernel,
        Err(ended) => return ended,
    };
    match play_load(&mut kernel, demo.clients) {
        Ok(totals) => {
            let status = write_totals(demo.clients, totals, out);
            Ended {
                status,
                store: kernel.close(),
            }
        }
        Err(SwapFault) => Ended {
            status: Status::SwapFault,
            store: kernel.close(),
        },
    }
}
