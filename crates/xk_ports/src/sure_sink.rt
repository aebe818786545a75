//! A sink that never fails.

ghost use Rattle.std.specs.Prelude.{◌≡◌, ◌<◌, [], true, length, IfOk};
ghost use Rattle.xk_ports.specs.SureSink.{sure_after};

use crate::sink::Sink;
use std::alloc::Global;
use std::marker::Model;
use xk_base::{Failed, NoMemory};

/// A sink without faults. It keeps the first bytes, up to its room, and drops the others; it tells
/// its bytes until it has dropped one.
#[derive(Debug, Drop)]
pub struct SureSink {
    kept: Vec<u8>,
    room: usize,
    is_whole: bool,
}

impl Model for SureSink {
    ghost use Rattle.std.specs.Prelude.{◌≤◌, vec_len, vec_capacity};
    ghost use Rattle.xk_ports.specs.SureSink.{SureSinkState};

    ghost Value = { SureSinkState };

    ghost view = { λ s. record { kept = s.kept.items; room = s.room; is_whole = s.is_whole } };

    ghost invariant = { λ s. (vec_len s.kept ≤ s.room) × (s.room ≤ vec_capacity s.kept) };
}

impl SureSink {
    /// An empty sink that keeps `room` bytes.
    pub fn new(alloc: Global, room: usize) -> Result<SureSink, NoMemory>
        ensures { IfOk result (λ sink. sink ≡ record { kept = []; room = room; is_whole = true }) }
    {
        match Vec::with_capacity(alloc, room) {
            Ok(kept) => Ok(SureSink {
                kept,
                room,
                is_whole: true,
            }),
            Err(_) => Err(NoMemory),
        }
    }

    /// The bytes that were kept.
    pub fn as_slice(&self) -> &[u8]
        ensures { result.now ≡ self.now.kept }
    {
        self.kept.as_slice()
    }

    /// Whether all bytes were kept.
    pub fn is_whole(&self) -> bool
        ensures { result ≡ self.now.is_whole }
    {
        self.is_whole
    }
}

impl Sink for SureSink {
    ghost use Rattle.std.proofs.Common.{arith};
    ghost use Rattle.xk_ports.specs.SureSink.{sure_written};

    ghost written = { sure_written };

    ghost faults = { λ _. 0 };

    ghost bounded = { λ _. Prim.omega arith };

    /// Takes all bytes, and never fails.
    fn write(&mut self, bytes: &[u8]) -> Result<usize, Failed>
        requires { 0 < length bytes.now }
        ensures all { result ≡ Ok (length bytes.now) }
        ensures after { self.new ≡ sure_after self.old bytes.now }
    {
        let count = bytes.len().min(self.room - self.kept.len());
        if count < bytes.len() {
            self.is_whole = false;
        }
        match self.kept.extend_from_slice(&bytes[..count]) {
            Ok(()) => Ok(bytes.len()),
            Err(_) => unreachable!(),
        }
    }
}
