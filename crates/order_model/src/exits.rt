//! What processes end with, as records tell it.

ghost use Rattle.std.specs.List.{find};
ghost use Rattle.std.specs.Prelude.{◌≡◌, ◌==◌, ◌++◌, OnOk};
ghost use Rattle.order_model.specs.Exits.{end_of_call, end_of_what, exit_in, kept_ends};

use std::alloc::AllocError;
use xk_base::{Pid, Rec, ThreadId, What};

/// The first word of the call TerminateProcess.
const TERMINATE_PROCESS: u32 = 22;

/// What a process ended with.
#[derive(Clone, Copy, Debug, PartialEq, Eq)]
pub enum Exit {
    /// The word of its call TerminateProcess.
    Exited(u32),
    /// A fault of one of its threads: its cause and its value.
    Faulted(u8, u32),
    /// Neither: an event killed it, or its last thread ended.
    Killed,
}

/// A process that ended.
#[derive(Clone, Copy, Debug, PartialEq, Eq)]
pub struct Ended {
    pub pid: Pid,
    pub exit: Exit,
}

/// The process of a thread ends with its call, where that is TerminateProcess.
fn push_call(thread: ThreadId, words: &[u32; 8], ends: &mut Vec<Ended>) -> Result<(), AllocError>
    ensures { OnOk result (ends.new.items ≡ ends.old.items ++ end_of_call thread words.now) }
{
    if words[0] != TERMINATE_PROCESS {
        return Ok(());
    }
    ends.push(Ended {
        pid: thread.pid,
        exit: Exit::Exited(words[1]),
    })?;
    Ok(())
}

/// What a record tells of the end of a process is put behind what others told.
fn push_end(what: What, ends: &mut Vec<Ended>) -> Result<(), AllocError>
    ensures { OnOk result (ends.new.items ≡ ends.old.items ++ end_of_what what) }
{
    let ended = match what {
        What::Call(thread, words) => return push_call(thread, &words, ends),
        What::Fault(thread, cause, value) => Ended {
            pid: thread.pid,
            exit: Exit::Faulted(cause, value),
        },
        What::Gone(pid) => Ended {
            pid,
            exit: Exit::Killed,
        },
        What::Reply(_, _) | What::Retry(_) | What::Byte(_, _) | What::End(_) | What::Irq(_, _) => {
            return Ok(());
        }
    };
    ends.push(ended)?;
    Ok(())
}

/// What these records tell of the ends of processes is put behind what others told, where it is kept.
pub fn push_ends(keeps: bool, records: &[Rec], ends: &mut Vec<Ended>) -> Result<(), AllocError>
    ensures { OnOk result (ends.new.items ≡ ends.old.items ++ kept_ends keeps records.now) }
{
    if !keeps {
        return Ok(());
    }
    for rec in records {
        push_end(rec.what, ends)?;
    }
    Ok(())
}

/// The first of these that tells the end of the process.
fn end_in(ends: &[Ended], pid: Pid) -> Option<Ended>
    ensures { result ≡ find (λ end. end.pid.0 == pid.0) ends.now }
{
    ends.iter().copied().find(|end| end.pid.0 == pid.0)
}

/// What the process ended with, if these tell its end.
pub fn exit_in(ends: &[Ended], pid: Pid) -> Option<Exit>
    ensures { result ≡ exit_in ends.now pid.0 }
{
    match end_in(ends, pid) {
        Some(end) => Some(end.exit),
        None => None,
    }
}
