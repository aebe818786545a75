//! What endings fail of, as text.

ghost use Rattle.std.specs.Prelude.{◌≡◌, ◌++◌, OnOk};
ghost use Rattle.order_text.specs.Failings.{failing_text, waiter_text};

use crate::text::{put, put_number};
use crate::waits::put_thread;
use order_model::{Failing, Waiter};
use std::alloc::AllocError;
use xk_base::{Pid, ThreadId};

/// Appends that the threads of this process are asked about.
fn put_process(text: &mut Vec<u8>, pid: Pid) -> Result<(), AllocError>
    ensures { OnOk result (text.new.items ≡ text.old.items ++ waiter_text (Waiter.Process pid)) }
{
    text.push(b'=')?;
    put_number(text, u64::from(pid.0))
}

/// Appends that this thread is asked about.
fn put_one(text: &mut Vec<u8>, who: ThreadId) -> Result<(), AllocError>
    ensures { OnOk result (text.new.items ≡ text.old.items ++ waiter_text (Waiter.Thread who)) }
{
    text.push(b'=')?;
    put_thread(text, u32::from(who.pid.0), u32::from(who.tid.0))
}

/// Appends which threads are asked about.
fn put_waiter(text: &mut Vec<u8>, who: Waiter) -> Result<(), AllocError>
    ensures { OnOk result (text.new.items ≡ text.old.items ++ waiter_text who) }
{
    match who {
        Waiter::Any => Ok(()),
        Waiter::Process(pid) => put_process(text, pid),
        Waiter::Thread(who) => put_one(text, who),
    }
}

/// Appends that threads wait.
fn put_waits(text: &mut Vec<u8>, who: Waiter) -> Result<(), AllocError>
    ensures { OnOk result (text.new.items ≡ text.old.items ++ failing_text (Failing.Waits who)) }
{
    put(text, b"waits")?;
    put_waiter(text, who)
}

/// Appends what an ending fails of, as it is spelled in a command line.
pub fn put_failing(text: &mut Vec<u8>, failing: &Failing<'_>) -> Result<(), AllocError>
    ensures { OnOk result (text.new.items ≡ text.old.items ++ failing_text failing.now) }
{
    match *failing {
        Failing::Exit => put(text, b"exit"),
        Failing::Fault => put(text, b"fault"),
        Failing::Waits(who) => put_waits(text, who),
        Failing::Console(part) => {
            put(text, b"console=")?;
            put(text, part.as_bytes())
        }
        Failing::ConsoleNot(part) => {
            put(text, b"console-not=")?;
            put(text, part.as_bytes())
        }
    }
}
