//! Whether the machine can have the processes of a state, told from the rows.

ghost use Rattle.std.specs.Prelude.{◌≡◌};
ghost use Rattle.std.specs.List.{list_all};
ghost use Rattle.snapshot_matching.specs.ProcessParts.{are_apart as are_apart_of, are_processes_told as are_processes_told_of};
ghost use Rattle.snapshot_matching.specs.ProcessParts.{is_within_limits as is_within_limits_of};

use snapshot_rows::ProcRow;
use xk_base::limits::{CONNECTION_LIMIT, PROCESS_LIMIT};

fn is_within_limits(process: &ProcRow) -> bool
    ensures { result ≡ is_within_limits_of process.now }
{
    let connections = process.serials.as_slice().len();
    connections <= CONNECTION_LIMIT as usize
        && (process.alive == 1 || (process.heap == 0 && connections == 0))
}

fn all_within_limits(procs: &[ProcRow]) -> bool
    ensures { result ≡ list_all is_within_limits_of procs.now }
{
    procs.iter().all(|process| is_within_limits(process))
}

/// Whether no serial stands twice.
fn are_apart(serials: &[u32]) -> bool
    ensures { result ≡ are_apart_of serials.now }
{
    match serials.split_first() {
        Some((first, rest)) => !rest.contains(first) && are_apart(rest),
        None => true,
    }
}

fn all_apart(procs: &[ProcRow]) -> bool
    ensures { result ≡ list_all (λ p. are_apart_of p.serials) procs.now }
{
    procs
        .iter()
        .all(|process| are_apart(process.serials.as_slice()))
}

/// The limits are looked at first, so that few serials are compared.
pub fn are_processes_told(n: u32, procs: &[ProcRow]) -> bool
    ensures { result ≡ are_processes_told_of n procs.now }
{
    n <= PROCESS_LIMIT as u32 && all_within_limits(procs) && all_apart(procs)
}
