//! What rows say of a process.

ghost use Rattle.std.specs.Prelude.{◌≡◌};
ghost use Rattle.snapshot_rows.specs.Machines.{processes_of};

use crate::state::ProcRow;

/// Whether there is a process of this pid, and it is alive.
pub fn is_alive(procs: &[ProcRow], pid: u32) -> bool
    ensures { result ≡ (processes_of procs.now pid).alive }
{
    if pid < 2 {
        return false;
    }
    match procs.get(pid as usize - 2) {
        Some(process) => process.alive == 1,
        None => false,
    }
}
