//! What makes an ending a failure.

ghost use Rattle.std.specs.Option.{option_map_or};
ghost use Rattle.std.specs.Prelude.{◌≡◌, ◌≤◌, ℕ, List, false};
ghost use Rattle.order_model.specs.Choosing.{IsStand};
ghost use Rattle.order_model.specs.Exits.{exit_in as exit_told};
ghost use Rattle.order_model.specs.Failing.{fails_of, first_failing as first_of, has_text as is_text_in, is_asked as is_asked_of, is_bad as is_bad_exit};
ghost use Rattle.order_model.specs.Failing.{is_stuck as is_stuck_state, some_ended as some_ended_so, some_stuck as some_stuck_in};
ghost use Rattle.order_model.specs.Moves.{Point};
ghost use Rattle.snapshot_rows.specs.Machines.{machine_of, threads_of};
ghost use Rattle.xk_base.specs.declared.limits.TheConstants.{PROCESS_LIMIT};

use crate::exits::{Ended, Exit, exit_in};
use crate::orders::Trail;
use crate::turns::row_of;
use snapshot_rows::{JOINING, State, ThreadRow, WAITING};
use thread_table::id_at;
use xk_base::limits::TID_LIMIT;
use xk_base::{Pid, ThreadId};

/// Which threads are asked about.
#[derive(Clone, Copy, Debug, PartialEq, Eq)]
pub enum Waiter {
    /// Any.
    Any,
    /// Those of this process.
    Process(Pid),
    /// This one.
    Thread(ThreadId),
}

/// What makes an ending a failure.
#[derive(Clone, Copy, Debug, PartialEq, Eq)]
pub enum Failing<'a> {
    /// A process ended with an exit word other than 0.
    Exit,
    /// A process ended by a fault.
    Fault,
    /// One of these threads waits for an answer, or joins a thread.
    Waits(Waiter),
    /// The bytes of the console contain those of the text.
    Console(&'a str),
    /// They don't.
    ConsoleNot(&'a str),
}

/// How a process ends badly.
#[derive(Clone, Copy, Debug)]
enum Badly {
    /// With a word other than 0.
    ByWord,
    /// By a fault.
    ByFault,
}

/// Whether a process that ended so ended badly.
fn is_bad(how: Badly, exit: Exit) -> bool
    ensures { result ≡ is_bad_exit how exit }
{
    match (how, exit) {
        (Badly::ByWord, Exit::Exited(word)) => word != 0,
        (Badly::ByFault, Exit::Faulted(_, _)) => true,
        (Badly::ByWord, Exit::Faulted(_, _) | Exit::Killed) => false,
        (Badly::ByFault, Exit::Exited(_) | Exit::Killed) => false,
    }
}

/// Whether the process ended badly, if these tell its end.
fn has_ended(how: Badly, ends: &[Ended], pid: Pid) -> bool
    ensures { result ≡ option_map_or (is_bad_exit how) (exit_told ends.now pid.0) false }
{
    match exit_in(ends, pid) {
        Some(exit) => is_bad(how, exit),
        None => false,
    }
}

/// Whether one of so many processes ended badly.
fn some_ended(how: Badly, count: u32, ends: &[Ended]) -> bool
    requires { count ≤ PROCESS_LIMIT }
    ensures { result ≡ some_ended_so how count (exit_told ends.now) }
{
    for place in 0..count {
        if has_ended(how, ends, Pid(place as u8 + 2)) {
            return true;
        }
    }
    false
}

/// Whether there is a thread of this id, and it waits for an answer or joins another.
fn is_stuck(threads: &[ThreadRow], id: ThreadId) -> bool
    ensures { result ≡ option_map_or (λ thread. is_stuck_state thread.state) (threads_of threads.now id) false }
{
    match row_of(threads, id) {
        Some(row) => row.state == WAITING || row.state == JOINING,
        None => false,
    }
}

/// Whether the thread is asked about.
fn is_asked(who: Waiter, id: ThreadId) -> bool
    ensures { result ≡ is_asked_of who id }
{
    match who {
        Waiter::Any => true,
        Waiter::Process(pid) => id.pid.0 == pid.0,
        Waiter::Thread(who) => id.pid.0 == who.pid.0 && id.tid.0 == who.tid.0,
    }
}

/// Whether one of the threads that are asked about waits for an answer or joins another.
fn some_stuck(who: Waiter, state: &State) -> bool
    requires { state.now.n ≤ PROCESS_LIMIT }
    ensures { (file : List ℕ) → result ≡ some_stuck_in who (machine_of file state.now) }
{
    for place in 0..state.n as usize * TID_LIMIT as usize {
        let id = id_at(place);
        if is_asked(who, id) && is_stuck(state.threads.as_slice(), id) {
            return true;
        }
    }
    false
}

/// Whether the text stands somewhere in the bytes.
fn has_text(bytes: &[u8], text: &[u8]) -> bool
    ensures { result ≡ is_text_in bytes.now text.now }
{
    for start in 0..bytes.len() + 1 {
        if bytes[start..].starts_with(text) {
            return true;
        }
    }
    false
}

/// Whether an ending fails so, by its state and what the order to it left.
pub fn fails(failing: &Failing<'_>, state: &State, trail: &Trail) -> bool
    requires { state.now.n ≤ PROCESS_LIMIT }
    ensures { (p : Point) → IsStand p state.now trail.now → result ≡ fails_of failing.now p }
{
    match *failing {
        Failing::Exit => some_ended(Badly::ByWord, state.n, &trail.ends),
        Failing::Fault => some_ended(Badly::ByFault, state.n, &trail.ends),
        Failing::Waits(who) => some_stuck(who, state),
        Failing::Console(text) => has_text(&trail.console, text.as_bytes()),
        Failing::ConsoleNot(text) => !has_text(&trail.console, text.as_bytes()),
    }
}

/// The place of the first of these of which an ending fails.
pub fn first_failing(list: &[Failing<'_>], state: &State, trail: &Trail) -> Option<usize>
    requires { state.now.n ≤ PROCESS_LIMIT }
    ensures { (p : Point) → IsStand p state.now trail.now → result ≡ first_of list.now p }
{
    for place in 0..list.len() {
        if fails(&list[place], state, trail) {
            return Some(place);
        }
    }
    None
}
