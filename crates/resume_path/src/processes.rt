//! The processes of a state are there again.

ghost use Rattle.std.specs.Prelude.{◌≡◌, ◌≤◌, ℕ, true, [], IfOk, Some, length, map, nat_eq};
ghost use Rattle.process_table.specs.ProcessMap.{change, connections_of, heap_of};
ghost use Rattle.process_table.specs.Shown.{process_count, processes_of};
ghost use Rattle.process_table.specs.State.{new_process};
ghost use Rattle.xk_parts.specs.Shown.{process_of};
ghost use Rattle.suspend_image.specs.Forms.{IsProcRow};
ghost use Rattle.snapshot_rows.specs.Machines.{processes_of as state_processes};
ghost use Rattle.snapshot_matching.specs.ProcessParts.{are_apart, is_within_limits};
ghost use Rattle.xk_base.specs.Tables.Circle.{IsPid};
ghost use Rattle.xk_base.specs.Tables.Counting.{put_at};
ghost use Rattle.xk_base.specs.Tables.Sids.{serial_of};
ghost use Rattle.resume_path.specs.Resumable.{CanResume};
ghost use Rattle.resume_path.specs.Tables.{row_process, with_connections};

use process_table::Processes;
use std::alloc::Global;
use suspend_image::{ProcRow, State};
use xk_base::{NoMemory, Pid, Serial};

// A process, which has no connection, is connected to the servers of these serials in their order.
fn connect_all(procs: &mut Processes, pid: Pid, serials: &[u32])
    requires pid { IsPid (process_count procs.old) pid.0 }
    requires none { connections_of (processes_of procs.old pid.0) ≡ [] }
    requires few { length serials.now ≤ 32 }
    requires apart { are_apart serials.now ≡ true }
    ensures after { processes_of procs.new ≡ change pid.0 (with_connections (map serial_of serials.now)) (processes_of procs.old) }
    ensures count { process_count procs.new ≡ process_count procs.old }
{
    'serials: for serial in serials {
        match procs.connect(pid, Serial(*serial)) {
            Ok(_) => {}
            Err(_) => unreachable!(),
        }
    }
}

// A new process becomes that of the row.
fn resume_process(procs: &mut Processes, pid: Pid, row: &ProcRow)
    requires pid { IsPid (process_count procs.old) pid.0 }
    requires fresh { processes_of procs.old pid.0 ≡ Some new_process }
    requires row { IsProcRow row.now }
    requires limits { is_within_limits row.now ≡ true }
    requires apart { are_apart row.now.serials ≡ true }
    ensures after { processes_of procs.new ≡ put_at nat_eq (processes_of procs.old) pid.0 (Some (row_process row.now)) }
    ensures count { process_count procs.new ≡ process_count procs.old }
{
    if row.alive == 0 {
        procs.end(pid);
        return;
    }
    procs.set_heap(pid, row.heap);
    connect_all(procs, pid, row.serials.as_slice());
}

// The processes of a state.
pub(crate) fn resume_processes(alloc: Global, state: &State) -> Result<Processes, NoMemory>
    requires resumable { CanResume state.now }
    ensures procs { IfOk result (λ t. (pid : ℕ) → process_of (processes_of t pid) ≡ state_processes state.now.procs pid) }
    ensures count { IfOk result (λ t. process_count t ≡ state.now.n) }
{
    let mut procs = Processes::new(alloc, state.n)?;
    let rows = state.procs.as_slice();
    'rows: for k in 0..rows.len() {
        resume_process(&mut procs, Pid(k as u8 + 2), &rows[k]);
    }
    Ok(procs)
}
