//! The order of threads.

ghost use Rattle.std.specs.Prelude.{◌≡◌, ◌<◌, ◌≤◌, ◌*◌, IsTrue};
ghost use Rattle.xk_base.specs.Tables.Circle.{is_thread_id, id_at};
ghost use Rattle.machine_model.specs.State.Machine.{Machine};
ghost use Rattle.machine_model.specs.State.Order.{next_ready, TellsReady};

use xk_base::limits::{PROCESS_LIMIT, TID_LIMIT};
use xk_base::{Pid, ThreadId, Tid};

/// The id at a place of the ascending order of thread ids.
fn id_at(place: usize) -> ThreadId
    requires { place < PROCESS_LIMIT * TID_LIMIT }
    ensures { result ≡ id_at place }
{
    let limit = TID_LIMIT as usize;
    ThreadId {
        pid: Pid((place / limit + 2) as u8),
        tid: Tid((place % limit + 1) as u8),
    }
}

/// The next ready thread after `cursor`, and `None` where no thread is Ready. `ready` tells of
/// each thread id of the machine, in ascending order, whether its thread is Ready.
pub fn next_ready(ready: &[bool], cursor: ThreadId) -> Option<ThreadId>
    ghost m: { Machine }
    requires few { m.processes ≤ PROCESS_LIMIT }
    requires tells { TellsReady ready.now m }
    requires thread { IsTrue (is_thread_id m.processes cursor) }
    ensures { result ≡ next_ready m cursor }
{
    let until = (cursor.pid.0 as usize - 2) * TID_LIMIT as usize + cursor.tid.0 as usize;
    for k in 0..ready.len() {
        let place = (until + k) % ready.len();
        if ready[place] {
            return Some(id_at(place));
        }
    }
    None
}

#[cfg(test)]
mod tests {
    use super::*;

    #[test]
    fn ids(rt: HostRuntime) {
        let last = ThreadId {
            pid: Pid(2),
            tid: Tid(31),
        };
        let next = ThreadId {
            pid: Pid(3),
            tid: Tid(1),
        };
        assert_eq!(rt; id_at(30), last);
        assert_eq!(rt; id_at(31), next);
    }
}
