//! The table of processes.

ghost use Rattle.std.specs.Prelude.{◌≡◌, ◌≤◌, IfOk, OnOk, OnErr, vec_len};
ghost use Rattle.xk_base.specs.Tables.Circle.{IsPid};
ghost use Rattle.xk_base.specs.Tables.Connections.{connected_to, has_room};
ghost use Rattle.xk_base.specs.declared.limits.TheConstants.{PROCESS_LIMIT};
ghost use Rattle.process_table.specs.State.{dead_process, connection, with_heap, with_connection};
ghost use Rattle.process_table.specs.ProcessMap.{new_processes, change, is_alive, heap_of, connections_of};

use crate::process::Process;
use std::alloc::Global;
use xk_base::limits::PROCESS_LIMIT;
use xk_base::{Cid, NoMemory, Pid, Serial, XousError};

/// The processes by pid, from 2 on. A pid is used once.
#[derive(Debug, Drop)]
pub struct Processes {
    by_pid: Vec<Process>,
    ghost few: { vec_len by_pid ≤ PROCESS_LIMIT },
}

#[tactic(auto, using(crate::proofs::ByPidLemmas::laws), unfolding(crate::specs::Shown::process_count, crate::specs::Shown::processes_of))]
impl Processes {
    ghost use Rattle.process_table.specs.Shown.{process_count, processes_of};

    /// A table of `procs` processes, all alive, with no heap and no connection. It takes all memory that
    /// they will ever need.
    pub fn new(alloc: Global, procs: u32) -> Result<Processes, NoMemory>
        requires { procs ≤ PROCESS_LIMIT }
        ensures count { IfOk result (λ t. process_count t ≡ procs) }
        ensures fresh { IfOk result (λ t. processes_of t ≡ new_processes procs) }
    {
        let Ok(mut by_pid) = Vec::with_capacity(alloc, procs as usize) else {
            return Err(NoMemory);
        };
        for _process in 0..procs {
            by_pid.push_reserved(Process::new());
        }
        Ok(Processes { by_pid })
    }

    /// The number of processes that the table was made for.
    pub fn procs(&self) -> u32
        ensures { result ≡ process_count self.now }
    {
        self.by_pid.len() as u32
    }

    /// Whether the process is there and alive, for any pid.
    pub fn alive(&self, pid: Pid) -> bool
        ensures { result ≡ is_alive (processes_of self.now pid.0) }
    {
        if pid.0 < 2 {
            return false;
        }
        self.by_pid
            .get(pid.0 as usize - 2)
            .is_some_and(|process| process.is_alive())
    }

    /// The length of its heap in bytes.
    pub fn heap(&self, pid: Pid) -> u32
        requires { IsPid (process_count self.now) pid.0 }
        ensures { result ≡ heap_of (processes_of self.now pid.0) }
    {
        self.by_pid[pid.0 as usize - 2].heap()
    }

    /// Sets the length of its heap in bytes.
    pub fn set_heap(&mut self, pid: Pid, bytes: u32)
        requires { IsPid (process_count self.old) pid.0 }
        ensures after { processes_of self.new ≡ change pid.0 (with_heap bytes) (processes_of self.old) }
        ensures count { process_count self.new ≡ process_count self.old }
    {
        self.by_pid[pid.0 as usize - 2].set_heap(bytes);
    }

    /// Whether the process is connected to the server, or may be.
    pub fn room(&self, pid: Pid, serial: Serial) -> bool
        requires { IsPid (process_count self.now) pid.0 }
        ensures { result ≡ has_room serial (connections_of (processes_of self.now pid.0)) }
    {
        self.by_pid[pid.0 as usize - 2].has_room(serial)
    }

    /// The connection of the process to the server: the one that is there, or a new one with the least
    /// unused number. It is refused with `InvalidLimit` exactly where `room` is false.
    pub fn connect(&mut self, pid: Pid, serial: Serial) -> Result<Cid, XousError>
        requires { IsPid (process_count self.old) pid.0 }
        ensures answer { result ≡ connection serial (connections_of (processes_of self.old pid.0)) }
        ensures ok { OnOk result (processes_of self.new ≡ change pid.0 (with_connection serial) (processes_of self.old)) }
        ensures err { OnErr result (processes_of self.new ≡ processes_of self.old) }
        ensures count { process_count self.new ≡ process_count self.old }
    {
        self.by_pid[pid.0 as usize - 2].connect(serial)
    }

    /// The server that the process reaches by the connection; `None` exactly where it has no such
    /// connection. The server may be dead.
    pub fn server_of(&self, pid: Pid, cid: Cid) -> Option<Serial>
        requires { IsPid (process_count self.now) pid.0 }
        ensures { result ≡ connected_to (connections_of (processes_of self.now pid.0)) cid.0 }
    {
        self.by_pid[pid.0 as usize - 2].server_of(cid)
    }

    /// Ends the process: it is dead from now on, with no heap and no connection.
    pub fn end(&mut self, pid: Pid)
        requires { IsPid (process_count self.old) pid.0 }
        ensures after { processes_of self.new ≡ change pid.0 (λ _. dead_process) (processes_of self.old) }
        ensures count { process_count self.new ≡ process_count self.old }
    {
        self.by_pid[pid.0 as usize - 2].end();
    }
}
