//! One thread.

ghost use Rattle.std.specs.Borrow.{Lends, sem};
ghost use Rattle.std.specs.Prelude.{◌≡◌, IsSome, Some};
ghost use Rattle.std.specs.contracts.option.Option.{the_row as option_row};
ghost use Rattle.thread_table.specs.contracts.thread.Thread.{the_row as thread_row};
ghost use Rattle.thread_table.specs.States.{is_ready_state, is_receiving_state};

use xk_base::{Number, Regs, Serial, Tid};

/// What a thread does.
#[derive(Clone, Copy, Debug, PartialEq, Eq)]
pub enum ThreadState {
    /// It may do the next step.
    Ready,
    /// It waits for a message at the server.
    Receiving(Serial),
    /// It waits for the answer to the message.
    Waiting(Number),
    /// It waits for the end of another thread of its process.
    Joining(Tid),
    /// It waits for an interrupt, as an interrupt thread alone does.
    Idle,
}

/// A thread.
#[derive(Clone, Copy, Debug, PartialEq, Eq)]
pub struct Thread {
    /// The address of its next instruction.
    pub pc: u32,
    pub regs: Regs,
    pub state: ThreadState,
}

impl ThreadState {
    /// Whether the thread may do the next step.
    pub(crate) fn is_ready(self) -> bool
        ensures { result ≡ is_ready_state self }
    {
        matches!(self, ThreadState::Ready)
    }

    /// Whether the thread waits for a message at the server.
    pub fn is_receiving(self, serial: Serial) -> bool
        ensures { result ≡ is_receiving_state serial self }
    {
        matches!(self, ThreadState::Receiving(at) if at == serial)
    }
}

/// The thread of a place that has one, to be changed.
pub(crate) fn thread_in(place: &mut Option<Thread>) -> &mut Thread
    requires { IsSome place.old }
    ensures* lends { sem 𝓛 (Lends (option_row thread_row) thread_row place.entry result Some) }
    ensures value { place.old ≡ Some result.now }
{
    match place {
        Some(thread) => thread,
        None => unreachable!(),
    }
}
