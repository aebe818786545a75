//! A kernel is booted.

ghost use Rattle.std.specs.Option.{option_map};
ghost use Rattle.std.specs.Prelude.{◌≡◌, ◌≤◌, ◌<◌, ◌==◌, true, if◌then◌else◌, [], All, None, IfErr, IfOk, length, replicate};
ghost use Rattle.boot_plan.specs.Capacity.{page_frames};
ghost use Rattle.boot_plan.specs.FirstPages.{planned_pages};
ghost use Rattle.boot_plan.specs.Lawful.{CanStart, IsLawfulPlan};
ghost use Rattle.msg_queue.specs.Seats.{empty_seat};
ghost use Rattle.process_table.specs.ProcessMap.{new_processes};
ghost use Rattle.process_table.specs.Shown.{process_count as processes_made, processes_of};
ghost use Rattle.server_table.specs.ServerState.{no_servers};
ghost use Rattle.server_table.specs.ServersOf.{servers_of};
ghost use Rattle.thread_table.specs.ThreadMap.{no_threads};
ghost use Rattle.thread_table.specs.Shown.{process_count, threads_of};
ghost use Rattle.xk_ports.specs.Keeping.{KeepsStore};
ghost use Rattle.vm_memory.specs.Bytes.{MeansBytes, none_out};
ghost use Rattle.vm_memory.specs.Memory.{size, store_of};
ghost use Rattle.vm_memory.specs.Tie.{IsTied};
ghost use Rattle.xk_base.specs.Outside.{Rose};
ghost use Rattle.xk_base.specs.Tables.Circle.{IsPid};
ghost use Rattle.xk_base.specs.declared.ids.ThreadId.{ThreadId as Id};
ghost use Rattle.xk_base.specs.declared.ids.Tid.{Tid as TidNumber};
ghost use Rattle.xk_base.specs.declared.limits.TheConstants.{PROCESS_LIMIT, RECORD_LIMIT, SERVER_LIMIT};
ghost use Rattle.xk_kernel.specs.Knowing.{ComesTo};
ghost use Rattle.xk_kernel.specs.Sound.{IsSound, IsUsable};
ghost use Rattle.xk_kernel.specs.Start.{first_threads, start, threads_at_start};
ghost use Rattle.xk_parts.specs.Shown.{thread_of};
ghost use Rattle.xk_kernel.specs.State.{machine_of};
ghost use Rattle.xk_kernel.specs.Stepping.{last_of};

use crate::kernel::Kernel;
use crate::kernel::threads::new_thread;
use boot_plan::BootPlan;
use irq_claims::Claims;
use msg_queue::Queues;
use process_table::Processes;
use server_table::Servers;
use std::alloc::Global;
use thread_table::{Thread, ThreadState, Threads};
use timer_device::Timer;
use vm_memory::{BootError, BootFault, Memory};
use xk_base::limits::RECORD_LIMIT;
use xk_base::{Log, NoMemory, Pid, Regs, ThreadId, Tid};
use xk_ports::SwapStore;

/// The end of the stack pages with which a process begins.
const FIRST_STACK: u32 = 0x8000_0000;

// The threads at their start, the processes, an empty table of servers, the log, and no messages.
type Tables = (Threads, Processes, Servers, Log, Queues);

// Starts the interrupt thread, which is idle, and the first thread of a process.
fn start_process(threads: &mut Threads, pid: Pid, entry: u32)
    requires pid { IsPid (process_count threads.old) pid.0 }
    requires none { (tid : TidNumber) → threads_of threads.old (record { pid = pid; tid = tid }) ≡ None }
    ensures after { let old = threads_of threads.old in
        let new = threads_of threads.new in
        (id : Id) → option_map thread_of (new id)
        ≡ (if id.pid.0 == pid.0 then first_threads entry id.tid.0 else option_map thread_of (old id)) }
    ensures count { process_count threads.new ≡ process_count threads.old }
{
    let idle = Thread {
        pc: 0,
        regs: Regs::new(),
        state: ThreadState::Idle,
    };
    threads.start(ThreadId { pid, tid: Tid(1) }, idle);
    let first = new_thread(entry, FIRST_STACK, [0; 4]);
    threads.start(ThreadId { pid, tid: Tid(2) }, first);
}

// Starts the threads of all processes of a plan, where there is none yet.
fn start_processes(threads: &mut Threads, plan: &BootPlan)
    requires few { length plan.now.procs ≤ PROCESS_LIMIT }
    requires count { process_count threads.old ≡ length plan.now.procs }
    requires empty { threads_of threads.old ≡ no_threads }
    ensures after { (id : Id) → option_map thread_of (threads_of threads.new id) ≡ threads_at_start plan.now id }
    ensures count { process_count threads.new ≡ length plan.now.procs }
{
    let processes = plan.procs.as_slice();
    'processes: for k in 0..processes.len() {
        start_process(threads, Pid(k as u8 + 2), processes[k].entry);
    }
}

// The tables of a kernel at its start.
fn tables(alloc: Global, plan: &BootPlan) -> Result<Tables, NoMemory>
    requires few { length plan.now.procs ≤ PROCESS_LIMIT }
    ensures threads { IfOk result (λ t. (id : Id) → option_map thread_of (threads_of t.0 id) ≡ threads_at_start plan.now id) }
    ensures threaded { IfOk result (λ t. process_count t.0 ≡ length plan.now.procs) }
    ensures procs { IfOk result (λ t. processes_of t.1 ≡ new_processes (length plan.now.procs)) }
    ensures made { IfOk result (λ t. processes_made t.1 ≡ length plan.now.procs) }
    ensures servers { IfOk result (λ t. servers_of t.2 ≡ no_servers) }
    ensures log { IfOk result (λ t. t.3 ≡ record { step = 0; records = []; room = RECORD_LIMIT }) }
    ensures queues { IfOk result (λ t. t.4 ≡ replicate SERVER_LIMIT empty_seat) }
{
    let count = plan.procs.as_slice().len() as u32;
    let mut threads = Threads::new(alloc, count)?;
    let procs = Processes::new(alloc, count)?;
    let servers = Servers::new(alloc)?;
    let log = Log::new(alloc, RECORD_LIMIT as usize)?;
    start_processes(&mut threads, plan);
    // These come last: they are closed, and not just let go.
    let queues = Queues::new(alloc)?;
    Ok((threads, procs, servers, log, queues))
}

impl<W: SwapStore> Kernel<W> {
    /// Boots the processes of a plan with the bytes of its file. All memory of the run is taken
    /// here. Want of it hands the store back, and so does `SwapFault`, which comes only where the
    /// plan has more pages than there are frames for.
    pub fn boot(
        alloc: Global,
        plan: &BootPlan,
        file: &[u8],
        store: W,
    ) -> Result<Kernel<W>, BootFault<W>>
        requires lawful { IsLawfulPlan (length file.now) plan.now }
        requires can_start { All CanStart plan.now.procs }
        requires slots { plan.now.slots ≤ W.slot_count store }
        ensures sound { IfOk result (λ k. IsSound W.SwapStore k) }
        ensures usable { IfOk result (λ k. IsUsable k) }
        // Bytes stand as the plan says where the store is honest and tells, or no page is out.
        ensures start { IfOk result (λ k. ComesTo (MeansBytes W.SwapStore k.mem) (machine_of W.held k) (start plan.now file.now)) }
        // A page is out only where the plan has more pages than there are frames for pages.
        ensures near { planned_pages plan.now ≤ page_frames plan.now.frames (length plan.now.procs)
            → IfOk result (λ k. none_out k.mem ≡ true) }
        ensures records { IfOk result (λ k. last_of k ≡ []) }
        ensures tie { IfOk result (λ k. IsTied W.held k.mem) }
        ensures size { let first = plan.now.ram_start in
            let frames = plan.now.frames in
            IfOk result (λ k. size k.mem
            ≡ record { procs = length plan.now.procs; area = record { start = first; frames = frames }; slots = plan.now.slots }) }
        ensures store { IfOk result (λ k. KeepsStore W.SwapStore store (store_of k.mem)) }
        ensures back { IfErr result (λ fault. KeepsStore W.SwapStore store fault.store) }
        // A swap fault comes only where the store's count rose and the pages don't fit in frames.
        ensures cause { IfErr result (λ fault. fault.why ≡ BootError.SwapFault → Rose (W.faults store) (W.faults fault.store)) }
        ensures out { IfErr result (λ fault. fault.why ≡ BootError.SwapFault
            → page_frames plan.now.frames (length plan.now.procs) < planned_pages plan.now) }
    {
        let (threads, procs, servers, log, queues) = match tables(alloc, plan) {
            Ok(tables) => tables,
            Err(NoMemory) => {
                return Err(BootFault {
                    why: BootError::NoMemory,
                    store,
                });
            }
        };
        let mem = match Memory::boot(alloc, plan, file, store) {
            Ok(mem) => mem,
            Err(fault) => {
                queues.close();
                return Err(fault);
            }
        };
        Ok(Kernel {
            mem,
            threads,
            procs,
            servers,
            queues,
            claims: Claims::new(),
            log,
            cursor: ThreadId {
                pid: Pid(2),
                tid: Tid(2),
            },
            next: 1,
            steps: 0,
            timer: Timer::new(),
            reserved: None,
        })
    }
}
