//! A sink in memory, with writes that are to fail.

ghost use Rattle.std.specs.Prelude.{◌≡◌, ◌<◌, ◌≤◌, ◌-◌, ◌++◌, [], ℕ, length, take, min, is_err, IfOk, OnErr};
ghost use Rattle.xk_base.specs.Outside.{Rose};
ghost use Rattle.xk_ports.specs.Calls.{no_calls, called, failed, faults_of};
ghost use Rattle.xk_ports.specs.MemSink.{room_left, is_write_to_fail};
ghost use Rattle.xk_ports.specs.Told.{Grows};

use crate::calls::Calls;
use crate::sink::Sink;
use std::alloc::Global;
use std::marker::Model;
use xk_base::{Failed, NoMemory};

/// A sink that keeps all bytes, up to its room, and tells them.
#[derive(Debug, Drop)]
pub struct MemSink {
    bytes: Vec<u8>,
    room: usize,
    calls: Calls,
}

impl Model for MemSink {
    ghost use Rattle.std.specs.Prelude.{◌≤◌, vec_len, vec_capacity};
    ghost use Rattle.xk_ports.specs.MemSink.{MemSinkState};

    ghost Value = { MemSinkState };

    ghost view = { λ s. record { bytes = s.bytes.items; room = s.room; calls = s.calls } };

    ghost invariant = { λ s. (vec_len s.bytes ≤ s.room) × (s.room ≤ vec_capacity s.bytes) };
}

impl MemSink {
    /// An empty sink with room for `room` bytes. The writes whose numbers `fails` lists are to
    /// fail, counting from 1.
    pub fn new(alloc: Global, room: usize, fails: Vec<u64>) -> Result<MemSink, NoMemory>
        ensures { IfOk result (λ sink. sink ≡ record { bytes = []; room = room; calls = no_calls fails.items }) }
    {
        match Vec::with_capacity(alloc, room) {
            Ok(bytes) => Ok(MemSink {
                bytes,
                room,
                calls: Calls::new(fails),
            }),
            Err(_) => Err(NoMemory),
        }
    }

    /// All bytes that were appended.
    pub fn as_slice(&self) -> &[u8]
        ensures { result.now ≡ self.now.bytes }
    {
        self.bytes.as_slice()
    }
}

impl Sink for MemSink {
    ghost use Rattle.std.specs.Prelude.{Some};
    ghost use Rattle.xk_ports.specs.Calls.{faults_of};
    ghost use Rattle.std.proofs.Common.{arith};

    ghost written = { λ s. Some s.bytes };

    ghost faults = { λ s. faults_of s.calls };

    ghost bounded = { λ s. Prim.omega arith };

    /// Fails exactly where its number is listed or no room is left; else it takes what fits.
    fn write(&mut self, bytes: &[u8]) -> Result<usize, Failed>
        requires { 0 < length bytes.now }
        ensures fails { is_err result ≡ is_write_to_fail self.old }
        ensures takes { IfOk result (λ n. n ≡ min (length bytes.now) (room_left self.old)) }
        ensures ok { IfOk result
            (λ n. self.new ≡ record self.old { bytes = self.old.bytes ++ take n bytes.now; calls = called self.old.calls }) }
        ensures err { OnErr result (self.new ≡ record self.old { calls = failed self.old.calls }) }
    {
        let is_to_fail = self.calls.count();
        let count = bytes.len().min(self.room - self.bytes.len());
        if is_to_fail || count == 0 {
            self.calls.fault();
            return Err(Failed);
        }
        match self.bytes.extend_from_slice(&bytes[..count]) {
            Ok(()) => Ok(count),
            Err(_) => unreachable!(),
        }
    }
}
