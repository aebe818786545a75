//! What is seen of a state and of what the order to it left.

ghost use Rattle.std.specs.List.{flat_map};
ghost use Rattle.std.specs.Prelude.{◌≡◌, ◌+◌, ◌++◌, ℕ, true, List, None, OnOk, codes, if◌then◌else◌, map};
ghost use Rattle.order_model.specs.Endings.{process_seen, seen_of, threads_seen};
ghost use Rattle.order_model.specs.Choosing.{IsStand};
ghost use Rattle.order_model.specs.Exits.{exit_in};
ghost use Rattle.order_model.specs.Moves.{Point};
ghost use Rattle.order_text.specs.Rows.{AreTellable};
ghost use Rattle.order_text.specs.Texts.{console_part, is_told as is_told_of, life_text, process_text, seen_text, threads_text};
ghost use Rattle.snapshot_rows.specs.Machines.{machine_of};
ghost use Rattle.xk_base.specs.Tables.Counting.{listed_below};

use crate::consoles::put_console;
use crate::exits::put_exit;
use crate::text::{put, put_number};
use crate::threads::{busy_ids, put_threads};
use order_model::{Ended, Exit, Sights, Trail, exit_in as exit_of};
use snapshot_rows::{State, is_alive};
use std::alloc::AllocError;
use xk_base::Pid;

/// What the process ended with, where that is seen and told.
fn exit_seen(sights: Sights, ends: &[Ended], pid: Pid) -> Option<Exit>
    ensures { result ≡ (if sights.exits then exit_in ends.now pid.0 else None) }
{
    if sights.exits {
        exit_of(ends, pid)
    } else {
        None
    }
}

/// Whether a process is told, which lives or not.
fn is_told(sights: Sights, is_alive: bool) -> bool
    ensures { result ≡ is_told_of sights is_alive }
{
    if is_alive {
        return sights.waits;
    }
    sights.exits || sights.waits
}

/// Appends what the threads of a process that lives are about.
fn put_living(text: &mut Vec<u8>, named: bool, state: &State, pid: Pid) -> Result<(), AllocError>
    requires { AreTellable state.now }
    ensures { (file : List ℕ) → OnOk result (text.new.items ≡ text.old.items
        ++ (codes " waits: " ++ threads_text named (threads_seen (machine_of file state.now) pid))) }
{
    put(text, b" waits: ")?;
    let ids = busy_ids(*text.allocator(), state, pid)?;
    put_threads(text, named, state, &ids)
}

/// Appends what the process ended with, or where it lives, what is seen of its threads.
fn put_life(
    text: &mut Vec<u8>,
    sights: Sights,
    state: &State,
    ends: &[Ended],
    pid: Pid,
) -> Result<(), AllocError>
    requires { AreTellable state.now }
    ensures { (file : List ℕ) → OnOk result (text.new.items
        ≡ text.old.items ++ life_text sights (process_seen (machine_of file state.now) (exit_in ends.now) pid).life) }
{
    if is_alive(state.procs.as_slice(), u32::from(pid.0)) {
        put_living(text, sights.servers, state, pid)
    } else {
        put_exit(text, exit_seen(sights, ends, pid))
    }
}

/// Appends what is seen of a process.
fn put_process(
    text: &mut Vec<u8>,
    sights: Sights,
    state: &State,
    ends: &[Ended],
    pid: Pid,
) -> Result<(), AllocError>
    requires { AreTellable state.now }
    ensures { (file : List ℕ) → OnOk result (text.new.items
        ≡ text.old.items ++ process_text sights (process_seen (machine_of file state.now) (exit_in ends.now) pid)) }
{
    if !is_told(sights, is_alive(state.procs.as_slice(), u32::from(pid.0))) {
        return Ok(());
    }
    put_number(text, u64::from(pid.0))?;
    put_life(text, sights, state, ends, pid)?;
    put(text, b"; ")
}

/// Appends what is seen of each process.
fn put_processes(
    text: &mut Vec<u8>,
    sights: Sights,
    state: &State,
    ends: &[Ended],
) -> Result<(), AllocError>
    requires { AreTellable state.now }
    ensures { (file : List ℕ) → OnOk result (text.new.items ≡ text.old.items ++ flat_map (process_text sights)
        (map (λ k. process_seen (machine_of file state.now) (exit_in ends.now) (record { 0 = k + 2 })) (listed_below state.now.n (λ k. true)))) }
{
    for place in 0..state.n {
        put_process(text, sights, state, ends, Pid(place as u8 + 2))?;
    }
    Ok(())
}

/// Appends the bytes of the console, where they are seen.
fn put_console_part(
    text: &mut Vec<u8>,
    is_seen: bool,
    hex: bool,
    console: &[u8],
) -> Result<(), AllocError>
    ensures { OnOk result (text.new.items ≡ text.old.items ++ console_part is_seen hex console.now) }
{
    if !is_seen {
        return Ok(());
    }
    put(text, b"console ")?;
    put_console(text, console, hex)?;
    put(text, b"; ")
}

/// Appends what is seen of a state and of what the order to it left, with a semicolon behind each part: the bytes of the console in
/// quotes, or as hexadecimal digits, and then each process.
pub fn put_seen(
    text: &mut Vec<u8>,
    sights: Sights,
    hex: bool,
    state: &State,
    trail: &Trail,
) -> Result<(), AllocError>
    requires { AreTellable state.now }
    ensures { (p : Point) → IsStand p state.now trail.now → OnOk result (text.new.items ≡ text.old.items ++ seen_text sights hex (seen_of p)) }
{
    put_console_part(text, sights.console, hex, &trail.console)?;
    put_processes(text, sights, state, &trail.ends)
}
