//! What a run leaves: one record for each call, reply, console byte, fault, end and death.

ghost use Rattle.std.specs.Prelude.{◌≡◌, ◌<◌, [], ◌∷◌, ◌++◌, length, IfOk};
ghost use Rattle.xk_base.specs.Log.{LogState};

use crate::errors::NoMemory;
use crate::ids::{Pid, ThreadId};
use std::alloc::Global;
use std::marker::Model;

/// What happened.
#[derive(Clone, Copy, Debug, PartialEq, Eq)]
pub enum What {
    /// A system call with its eight words.
    Call(ThreadId, [u32; 8]),
    /// The answer to a system call: eight words.
    Reply(ThreadId, [u32; 8]),
    /// A call that will be made again.
    Retry(ThreadId),
    /// A byte written to the console.
    Byte(ThreadId, u8),
    /// A fatal trap: its cause and its value.
    Fault(ThreadId, u8, u32),
    /// The end of a thread or of an interrupt handler.
    End(ThreadId),
    /// An interrupt that is delivered to the process.
    Irq(Pid, u8),
    /// The death of a process.
    Gone(Pid),
}

/// A record: what happened, and at which step. A record of an event has the number of steps done
/// before it.
#[derive(Clone, Copy, Debug, PartialEq, Eq)]
pub struct Rec {
    pub step: u32,
    pub what: What,
}

/// The records of one step or event, with room that is taken once.
#[derive(Debug, Drop)]
pub struct Log {
    records: Vec<Rec>,
    step: u32,
    room: usize,
}

impl Model for Log {
    ghost use Rattle.std.specs.Prelude.{◌≤◌, ◌^◌, ◌<◌, vec_len, vec_capacity};
    ghost use Rattle.xk_base.specs.Log.{LogState};

    ghost Value = { LogState };

    ghost view = { λ l. record { step = l.step; records = l.records.items; room = l.room } };

    ghost invariant = { λ l. (vec_len l.records ≤ l.room) × (l.room ≤ vec_capacity l.records) };
}

impl Log {
    /// An empty log of step 0 with room for `room` records.
    pub fn new(alloc: Global, room: usize) -> Result<Log, NoMemory>
        ensures { IfOk result (λ log. log ≡ record { step = 0; records = []; room = room }) }
    {
        match Vec::with_capacity(alloc, room) {
            Ok(records) => Ok(Log {
                records,
                step: 0,
                room,
            }),
            Err(_) => Err(NoMemory),
        }
    }

    /// Empties the log, and gives the step of the records that follow.
    pub fn clear(&mut self, step: u32)
        ensures { self.new ≡ record self.old { step = step; records = [] } }
    {
        self.records.clear();
        self.step = step;
    }

    /// Appends a record of the log's step.
    pub fn push(&mut self, what: What)
        requires { length self.old.records < self.old.room }
        ensures { self.new ≡ record self.old { records = self.old.records ++ record { step = self.old.step; what = what } ∷ [] } }
    {
        self.records.push_reserved(Rec {
            step: self.step,
            what,
        });
    }

    /// The records in the order in which they came.
    pub fn as_slice(&self) -> &[Rec]
        ensures { result.now ≡ self.now.records }
    {
        self.records.as_slice()
    }
}
