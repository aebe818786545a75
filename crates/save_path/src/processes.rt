//! The processes of a state are written.

ghost use Rattle.std.specs.Prelude.{◌≡◌, ◌≤◌, ◌*◌, length};
ghost use Rattle.std.specs.List.{flat_map};
ghost use Rattle.process_table.specs.Shown.{process_count};
ghost use Rattle.xk_parts.specs.Shown.{processes_shown};
ghost use Rattle.suspend_image.specs.Spelling.{proc_bytes};
ghost use Rattle.xk_base.specs.Tables.Circle.{IsPid};
ghost use Rattle.xk_base.specs.declared.ids.Pid.{Pid as ProcessId};
ghost use Rattle.xk_base.specs.declared.limits.TheConstants.{CONNECTION_LIMIT, PROCESS_LIMIT};
ghost use Rattle.save_path.specs.Rows.{proc_at, rows_below};
ghost use Rattle.suspend_image.specs.SavedRows.{proc_row};
ghost use Rattle.save_path.specs.Written.{Appends, Fits};

use process_table::Processes;
use suspend_image::Sheet;
use xk_base::limits::CONNECTION_LIMIT;
use xk_base::{Cid, Pid};

// How many connections the process has.
fn connection_count(procs: &Processes, pid: Pid) -> u32
    requires pid { IsPid (process_count procs.now) pid.0 }
    requires few { length (processes_shown procs.now pid.0).connections ≤ CONNECTION_LIMIT }
    ensures { result ≡ length (processes_shown procs.now pid.0).connections }
{
    for k in 0..CONNECTION_LIMIT {
        if procs.server_of(pid, Cid(k + 2)).is_none() {
            return k;
        }
    }
    CONNECTION_LIMIT
}

// Appends a process: whether it is alive, its heap, and the servers that it is connected to.
fn write_process(sheet: &mut Sheet, procs: &Processes, pid: Pid)
    requires pid { IsPid (process_count procs.now) pid.0 }
    requires few { length (processes_shown procs.now pid.0).connections ≤ CONNECTION_LIMIT }
    requires room { Fits sheet.old 140 }
    ensures { Appends sheet.old sheet.new (proc_bytes (proc_row (processes_shown procs.now pid.0))) 140 }
{
    let many = connection_count(procs, pid);
    sheet.push_words(&[u32::from(procs.alive(pid)), procs.heap(pid), many]);
    for k in 0..many {
        match procs.server_of(pid, Cid(k + 2)) {
            Some(serial) => sheet.push_word(serial.0),
            None => unreachable!(),
        }
    }
}

/// Appends the processes, as many as the table was made for.
pub(crate) fn write_processes(sheet: &mut Sheet, procs: &Processes, many: u32)
    requires many { many ≡ process_count procs.now }
    requires limit { many ≤ PROCESS_LIMIT }
    requires few { (pid : ProcessId) → length (processes_shown procs.now pid.0).connections ≤ CONNECTION_LIMIT }
    requires room { Fits sheet.old (140 * many) }
    ensures { Appends sheet.old sheet.new (flat_map proc_bytes (rows_below many (proc_at (processes_shown procs.now)))) (140 * many) }
{
    for k in 0..many {
        write_process(sheet, procs, Pid(k as u8 + 2));
    }
}
