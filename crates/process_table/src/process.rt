//! One process.

ghost use Rattle.std.specs.Prelude.{◌≡◌, ◌==◌, ◌<◌, IfSome, OnOk, OnErr, position};
ghost use Rattle.xk_base.specs.declared.limits.TheConstants.{CONNECTION_LIMIT};
ghost use Rattle.xk_base.specs.Tables.Connections.{connected_to, has_room};
ghost use Rattle.process_table.specs.State.{new_process, dead_process, connection, with_heap, with_connection};

use arrayvec::ArrayVec;
use std::marker::Model;
use xk_base::limits::CONNECTION_LIMIT;
use xk_base::{Cid, Serial, XousError};

/// How many connections a process has at most.
const CONNECTIONS: usize = CONNECTION_LIMIT as usize;

/// What the table knows of a process. The room for all its connections stands in it.
#[derive(Debug, Drop)]
pub struct Process {
    alive: bool,
    heap: u32,
    connections: ArrayVec<Serial, CONNECTIONS>,
}

impl Model for Process {
    ghost use Rattle.process_table.specs.State.{ProcessState};

    ghost Value = { ProcessState };

    ghost view = { λ p. record { alive = p.alive; heap = p.heap; connections = p.connections.items } };
}

impl Process {
    /// A process of a new machine.
    pub fn new() -> Process
        ensures { result ≡ new_process }
    {
        Process {
            alive: true,
            heap: 0,
            connections: ArrayVec::new(),
        }
    }

    /// Whether the process lives.
    pub fn is_alive(&self) -> bool
        ensures { result ≡ self.now.alive }
    {
        self.alive
    }

    /// The length of its heap in bytes.
    pub fn heap(&self) -> u32
        ensures { result ≡ self.now.heap }
    {
        self.heap
    }

    /// Sets the length of its heap in bytes.
    pub fn set_heap(&mut self, bytes: u32)
        ensures { self.new ≡ with_heap bytes self.old }
    {
        self.heap = bytes;
    }

    /// The place of the server among its connections.
    fn place_of(&self, serial: Serial) -> Option<usize>
        ensures found { result ≡ position (λ s. s.0 == serial.0) self.now.connections }
        ensures within { IfSome result (λ k. k < CONNECTION_LIMIT) }
    {
        self.connections
            .as_slice()
            .iter()
            .position(|s| *s == serial)
    }

    /// Whether it is connected to the server, or may be.
    pub fn has_room(&self, serial: Serial) -> bool
        ensures { result ≡ has_room serial self.now.connections }
    {
        self.place_of(serial).is_some() || !self.connections.is_full()
    }

    /// Its connection to the server, made where there is none.
    pub fn connect(&mut self, serial: Serial) -> Result<Cid, XousError>
        ensures answer { result ≡ connection serial self.old.connections }
        ensures ok { OnOk result (self.new ≡ with_connection serial self.old) }
        ensures err { OnErr result (self.new ≡ self.old) }
    {
        if let Some(k) = self.place_of(serial) {
            return Ok(Cid(k as u32 + 2));
        }
        let k = self.connections.len();
        match self.connections.try_push(serial) {
            Ok(()) => Ok(Cid(k as u32 + 2)),
            Err(_) => Err(XousError::InvalidLimit),
        }
    }

    /// The server of the connection; `None` exactly where it has no such connection.
    pub fn server_of(&self, cid: Cid) -> Option<Serial>
        ensures { result ≡ connected_to self.now.connections cid.0 }
    {
        if cid.0 < 2 {
            return None;
        }
        self.connections.get(cid.0 as usize - 2).copied()
    }

    /// Ends the process: its heap and its connections go.
    pub fn end(&mut self)
        ensures { self.new ≡ dead_process }
    {
        self.alive = false;
        self.heap = 0;
        self.connections.clear();
    }
}
