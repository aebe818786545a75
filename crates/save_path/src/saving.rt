//! The state of a machine is written whole: its numbers, its tables, and its pages.

ghost use Rattle.std.specs.Prelude.{◌≡◌, ◌≤◌, ◌+◌, ◌*◌, IsTrue, true, OnErr, OnOk};
ghost use Rattle.machine_laws.specs.Reserved.{IsReservedByThread};
ghost use Rattle.machine_model.specs.Runs.Matched.{Matched};
ghost use Rattle.process_table.specs.Shown.{process_count};
ghost use Rattle.save_path.specs.Fitting.{IsFit};
ghost use Rattle.save_path.specs.Saved.{saved_machine, saved_parts};
ghost use Rattle.save_path.specs.Written.{Appends, BringsPages, Fits, IsSaved, ReadsPages, WritesPages, front_parts};
ghost use Rattle.suspend_image.specs.Saveable.{IsSaveable};
ghost use Rattle.suspend_image.specs.Sheets.{room_for, with_bytes};
ghost use Rattle.suspend_image.specs.StateBytes.{saved_bytes};
ghost use Rattle.vm_memory.specs.Bytes.{MeansBytes};
ghost use Rattle.vm_memory.specs.Memory.{IsUsable, capacity_of, has_failed, ledger, processes, store_of};
ghost use Rattle.vm_memory.specs.Sound.{IsSound};
ghost use Rattle.xk_base.specs.Outside.{Rose};
ghost use Rattle.xk_base.specs.Tables.Circle.{is_thread_id};
ghost use Rattle.xk_parts.specs.Comes.{ComesTo};
ghost use Rattle.xk_base.specs.declared.limits.TheConstants.{STEP_LIMIT};

use crate::claims::write_claims;
use crate::numbers::{Numbers, write_numbers};
use crate::pages::{write_homes, write_orphans};
use crate::processes::write_processes;
use crate::servers::write_servers;
use crate::threads::write_threads;
use irq_claims::Claims;
use msg_queue::Queues;
use process_table::Processes;
use server_table::Servers;
use suspend_image::{Sheet, begin_state, finish_state};
use thread_table::Threads;
use vm_memory::Memory;
use xk_base::Failed;
use xk_ports::SwapStore;

// Appends the parts of the machine before its pages.
fn write_front<W: SwapStore>(
    sheet: &mut Sheet,
    mem: &Memory<W>,
    threads: &Threads,
    procs: &Processes,
    servers: &Servers,
    queues: &Queues,
    claims: &Claims,
    numbers: Numbers,
)
    requires sound { IsSound W.slot_count mem.now }
    requires procs { process_count procs.now ≡ processes mem.now }
    requires matched { let parts = saved_parts mem.now threads.now procs.now servers.now queues.now claims.now in
        Matched (saved_machine W.held numbers parts) }
    requires room { Fits sheet.old (363208 + 4604 * processes mem.now) }
    ensures parts { let m = saved_machine W.held numbers (saved_parts mem.now threads.now procs.now servers.now queues.now claims.now) in
        Appends sheet.old sheet.new (front_parts m) (363208 + 4604 * processes mem.now) }
    ensures fit { let parts = saved_parts mem.now threads.now procs.now servers.now queues.now claims.now in
        IsFit (saved_machine W.held numbers parts) }
{
    let many = procs.procs();
    write_numbers(sheet, mem, servers, many, numbers);
    write_processes(sheet, procs, many);
    write_threads(sheet, threads, many);
    write_servers(sheet, servers, queues);
    write_claims(sheet, claims);
}

// Appends the pages and the orphans of a machine that was made for so many processes.
fn write_pages<W: SwapStore>(
    sheet: &mut Sheet,
    mem: &mut Memory<W>,
    procs: u32,
) -> Result<(), Failed>
    requires sound { IsSound W.slot_count mem.old }
    requires usable { IsUsable mem.old }
    requires procs { procs ≡ processes mem.old }
    requires room { Fits sheet.old (8 + 4124 * (capacity_of mem.old + 3)) }
    ensures reads { ReadsPages W.SwapStore mem.old mem.new result }
    ensures pages { let known = MeansBytes W.SwapStore mem.old in
        OnOk result (WritesPages known (processes mem.new) (ledger W.held mem.new) sheet.old sheet.new) }
    ensures room { sheet.new.room ≡ sheet.old.room }
{
    write_homes(mem, sheet, procs)?;
    write_orphans(mem, sheet, procs)
}

/// Writes the bytes that spell the state of the machine of these parts and numbers, in place of what the sheet held: with them a
/// run goes on from it. The sheet has the room of one that was made for the machine's processes and pages. The machine stays as
/// it is; pages that are out come in one by one, and others may go out in their place. Where the bytes of pages aren't known,
/// each page has in the sheet the bytes that it had as it was read. After a failure no call may follow but those that end all.
pub fn save<W: SwapStore>(
    mem: &mut Memory<W>,
    threads: &Threads,
    procs: &Processes,
    servers: &Servers,
    queues: &Queues,
    claims: &Claims,
    numbers: Numbers,
    sheet: &mut Sheet,
) -> Result<(), Failed>
    requires sound { IsSound W.slot_count mem.old }
    requires usable { IsUsable mem.old }
    requires procs { process_count procs.now ≡ processes mem.old }
    requires cursor { IsTrue (is_thread_id (processes mem.old) numbers.cursor) }
    requires matched { let parts = saved_parts mem.old threads.now procs.now servers.now queues.now claims.now in
        Matched (saved_machine W.held numbers parts) }
    requires room { room_for (processes mem.old) (capacity_of mem.old) ≤ sheet.old.room }
    // The machine is as before, whatever is answered, and the memory but for pages that were out or are.
    ensures machine { let new = saved_parts mem.new threads.now procs.now servers.now queues.now claims.now in
        let old = saved_parts mem.old threads.now procs.now servers.now queues.now claims.now in
        ComesTo (MeansBytes W.SwapStore mem.old) (saved_machine W.held numbers new) (saved_machine W.held numbers old) }
    ensures brings { BringsPages W.SwapStore mem.old mem.new }
    ensures usable { OnOk result (IsUsable mem.new) }
    ensures failed { OnErr result (has_failed mem.new ≡ true) }
    ensures cause { OnErr result (Rose (W.faults (store_of mem.old)) (W.faults (store_of mem.new))) }
    // The sheet has its state bytes where the bytes of pages are known, and else all of them but those.
    ensures saved { let m = saved_machine W.held numbers (saved_parts mem.new threads.now procs.now servers.now queues.now claims.now) in
        MeansBytes W.SwapStore mem.old → OnOk result (sheet.new ≡ with_bytes (saved_bytes m) sheet.old) }
    ensures alike { let m = saved_machine W.held numbers (saved_parts mem.new threads.now procs.now servers.now queues.now claims.now) in
        OnOk result (IsSaved (MeansBytes W.SwapStore mem.old) m sheet.new.bytes) }
    // These bytes are read as the machine again (suspend_image): its numbers fit into words.
    ensures saveable { let m = saved_machine W.held numbers (saved_parts mem.new threads.now procs.now servers.now queues.now claims.now) in
        OnOk result (m.steps ≤ STEP_LIMIT → IsReservedByThread m → IsSaveable m) }
    ensures room { sheet.new.room ≡ sheet.old.room }
{
    begin_state(sheet);
    write_front(sheet, mem, threads, procs, servers, queues, claims, numbers);
    write_pages(sheet, mem, procs.procs())?;
    mem.pages_are_whole();
    finish_state(sheet);
    Ok(())
}
