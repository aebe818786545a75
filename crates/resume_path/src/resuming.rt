//! A machine is built again from a state, by the calls by which a run builds it: the tables; a memory without pages;
//! orphans, lent to the places at which they are held and without their lenders then; all other pages at their homes; and
//! the messages, each with its loan.

ghost use Rattle.std.specs.Option.{option_map};
ghost use Rattle.std.specs.Prelude.{◌≡◌, ◌<◌, ◌≤◌, ℕ, true, [], IfErr, IfOk, OnErr, OnOk, map, replicate};
ghost use Rattle.ledger_model.specs.Ledger.{empty_ledger};
ghost use Rattle.msg_queue.specs.Seats.{empty_seat};
ghost use Rattle.process_table.specs.Shown.{process_count as processes_made, processes_of};
ghost use Rattle.xk_parts.specs.Shown.{process_of, thread_of};
ghost use Rattle.server_table.specs.Listed.{listed_servers};
ghost use Rattle.server_table.specs.ServersOf.{servers_of};
ghost use Rattle.snapshot_rows.specs.Machines.{machine_of as state_machine, processes_of as state_processes, threads_of as state_threads};
ghost use Rattle.thread_table.specs.Shown.{process_count as processes_threaded, threads_of};
ghost use Rattle.vm_memory.specs.Bytes.{MeansBytes, none_out};
ghost use Rattle.vm_memory.specs.Memory.{IsUsable, capacity_of, frames_for_pages, processes, size, store_of};
ghost use Rattle.xk_base.specs.Outside.{Rose};
ghost use Rattle.xk_base.specs.declared.ids.ThreadId.{ThreadId as Id};
ghost use Rattle.xk_base.specs.declared.limits.TheConstants.{RECORD_LIMIT, SERVER_LIMIT};
ghost use Rattle.resume_path.specs.Coming.{HasCome, KeepsSize};
ghost use Rattle.resume_path.specs.Messages.{AreBack, IsStopped};
ghost use Rattle.resume_path.specs.Resumable.{CanResume, CanSplit, IsResumable};
ghost use Rattle.resume_path.specs.Resumable.{resumed_page_frames, resumed_size, state_ledger, state_pages};
ghost use Rattle.resume_path.specs.Resumed.{resumed_machine, resumed_parts};
ghost use Rattle.resume_path.specs.Tables.{row_seat};
ghost use Rattle.xk_parts.specs.Comes.{ComesTo};
ghost use Rattle.xk_parts.specs.Sound.{AreWhole};
ghost use Rattle.xk_ports.specs.Keeping.{KeepsStore};

use crate::claims::{resume_claims, resume_cursor, resume_reservation, resume_timer};
use crate::lends::resume_messages;
use crate::orphans::resume_orphans;
use crate::pages::resume_pages;
use crate::processes::resume_processes;
use crate::servers::server_seats;
use crate::sizes::empty_memory;
use crate::threads::resume_threads;
use irq_claims::Claims;
use kill_path::close_all;
use msg_queue::Queues;
use process_table::Processes;
use server_table::Servers;
use std::alloc::Global;
use suspend_image::State;
use thread_table::Threads;
use timer_device::Timer;
use vm_memory::{BootError, BootFault, Memory};
use xk_base::limits::RECORD_LIMIT;
use xk_base::{Failed, Log, NoMemory, ThreadId};
use xk_ports::SwapStore;

// The threads, processes and servers of a state, the log, and no messages.
type Tables = (Threads, Processes, Servers, Log, Queues);

// The tables of a state.
fn tables(alloc: Global, state: &State) -> Result<Tables, NoMemory>
    requires resumable { CanResume state.now }
    ensures threads { IfOk result (λ t. (id : Id) → option_map thread_of (threads_of t.0 id) ≡ state_threads state.now.threads id) }
    ensures threaded { IfOk result (λ t. processes_threaded t.0 ≡ state.now.n) }
    ensures procs { IfOk result (λ t. (pid : ℕ) → process_of (processes_of t.1 pid) ≡ state_processes state.now.procs pid) }
    ensures made { IfOk result (λ t. processes_made t.1 ≡ state.now.n) }
    ensures servers { IfOk result (λ t. servers_of t.2 ≡ listed_servers (map row_seat state.now.servers) state.now.next_serial) }
    ensures log { IfOk result (λ t. t.3 ≡ record { step = 0; records = []; room = RECORD_LIMIT }) }
    ensures queues { IfOk result (λ t. t.4 ≡ replicate SERVER_LIMIT empty_seat) }
{
    let threads = resume_threads(alloc, state)?;
    let procs = resume_processes(alloc, state)?;
    let seats = server_seats(alloc, state)?;
    let servers = Servers::resume(alloc, seats.as_slice(), state.next_serial)?;
    let log = Log::new(alloc, RECORD_LIMIT as usize)?;
    // These come last: they are closed, and not just let go.
    let queues = Queues::new(alloc)?;
    Ok((threads, procs, servers, log, queues))
}

// The pages and the messages of a state are there again.
fn resume_all<W: SwapStore>(
    mem: &mut Memory<W>,
    queues: &mut Queues,
    state: &State,
    file: &[u8],
) -> Result<(), Failed>
    requires resumable { IsResumable file.now state.now }
    requires processes { processes mem.old ≡ state.now.n }
    requires capacity { capacity_of mem.old ≡ state.now.cap }
    requires come { HasCome W.SwapStore (state_pages file.now state.now) mem.old empty_ledger }
    requires empty { queues.old ≡ replicate SERVER_LIMIT empty_seat }
    ensures come { OnOk result (HasCome W.SwapStore (state_pages file.now state.now) mem.new
        (state_ledger file.now state.now)) }
    ensures back { OnOk result (AreBack state.now (λ row. true) queues.new) }
    ensures failed { OnErr result (IsStopped W.SwapStore file.now state.now mem.old mem.new queues.new) }
    ensures full { OnErr result (frames_for_pages mem.old < state_pages file.now state.now) }
    ensures keeps { KeepsSize W.SwapStore mem.old mem.new }
{
    resume_orphans(mem, queues, state, file)?;
    resume_pages(mem, state, file)?;
    resume_messages(mem, queues, state, file);
    Ok(())
}

/// The parts of the machine of a state, and what no part holds.
pub struct Resumed<W: SwapStore> {
    /// The pages and their loans.
    pub mem: Memory<W>,
    /// The threads with their registers.
    pub threads: Threads,
    /// The processes with their connections.
    pub procs: Processes,
    /// The live servers at their seats.
    pub servers: Servers,
    /// The messages at each seat, with their loans.
    pub queues: Queues,
    /// The claims, with what is pending.
    pub claims: Claims,
    /// The log of a step, without records.
    pub log: Log,
    /// Whose turn it is.
    pub cursor: ThreadId,
    /// The number that the next accepted message gets.
    pub next: u32,
    /// Steps done.
    pub steps: u32,
    /// The timer, armed where the state's is.
    pub timer: Timer,
    /// The thread that has reserved an address, and that address.
    pub reserved: Option<(ThreadId, u32)>,
}

/// Builds the machine of a state that a file spells, with so many of the pages that there may be in slots of the store. All memory
/// is taken here. Want of it hands the store back, and so does `SwapFault`, which comes only where the state has more pages than
/// there are frames for.
pub fn resume<W: SwapStore>(
    alloc: Global,
    state: &State,
    file: &[u8],
    slots: u32,
    store: W,
) -> Result<Resumed<W>, BootFault<W>>
    requires resumable { IsResumable file.now state.now }
    requires split { CanSplit state.now slots }
    requires slots { slots ≤ W.slot_count store }
    ensures whole { IfOk result (λ r. AreWhole W.SwapStore r.cursor (resumed_parts r)) }
    ensures usable { IfOk result (λ r. IsUsable r.mem) }
    // Bytes stand as the file says where the store is honest and tells, or no page is out.
    ensures machine { let machine = state_machine file.now state.now in
        IfOk result (λ r. ComesTo (MeansBytes W.SwapStore r.mem) (resumed_machine W.held r) machine) }
    // A page is out only where the state has more pages than there are frames for pages.
    ensures near { state_pages file.now state.now ≤ resumed_page_frames state.now slots → IfOk result (λ r. none_out r.mem ≡ true) }
    ensures records { IfOk result (λ r. r.log.records ≡ []) }
    ensures size { IfOk result (λ r. size r.mem ≡ resumed_size state.now slots) }
    ensures store { IfOk result (λ r. KeepsStore W.SwapStore store (store_of r.mem)) }
    ensures back { IfErr result (λ fault. KeepsStore W.SwapStore store fault.store) }
    // A swap fault comes only where the store's count rose and the pages don't fit in frames.
    ensures cause { IfErr result (λ fault. fault.why ≡ BootError.SwapFault → Rose (W.faults store) (W.faults fault.store)) }
    ensures out { IfErr result (λ fault. fault.why ≡ BootError.SwapFault
        → resumed_page_frames state.now slots < state_pages file.now state.now) }
{
    let (threads, procs, mut servers, log, mut queues) = match tables(alloc, state) {
        Ok(tables) => tables,
        Err(NoMemory) => {
            return Err(BootFault {
                why: BootError::NoMemory,
                store,
            });
        }
    };
    let mut mem = match empty_memory(alloc, state, slots, store) {
        Ok(mem) => mem,
        Err(fault) => {
            queues.close();
            return Err(fault);
        }
    };
    match resume_all(&mut mem, &mut queues, state, file) {
        Ok(()) => Ok(Resumed {
            mem,
            threads,
            procs,
            servers,
            queues,
            claims: resume_claims(state),
            log,
            cursor: resume_cursor(state),
            next: state.next_number,
            steps: state.steps,
            timer: resume_timer(state),
            reserved: resume_reservation(state),
        }),
        Err(Failed) => {
            close_all(&mut mem, &mut servers, &mut queues);
            queues.close();
            Err(BootFault {
                why: BootError::SwapFault,
                store: mem.close(),
            })
        }
    }
}
