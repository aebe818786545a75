//! What threads wait for.

ghost use Rattle.std.specs.List.{list_any};
ghost use Rattle.std.specs.Option.{option_map, option_map_or};
ghost use Rattle.std.specs.Prelude.{◌≡◌, ◌==◌, ◌++◌, [], ℕ, Bool, List, OnOk};
ghost use Rattle.order_model.specs.Endings.{Joins, ReceivesAt, Waits, kept_at, state_seen};
ghost use Rattle.order_text.specs.Rows.{AreTellable};
ghost use Rattle.order_text.specs.Texts.{about_text, kept_text, server_text, thread_text};
ghost use Rattle.snapshot_rows.specs.Machines.{machine_of, servers_of, thread_at_id, thread_of};

use crate::names::put_name;
use crate::text::{put, put_number};
use snapshot_rows::{JOINING, MessageRow, READY, RECEIVING, ServerRow, State, ThreadRow, WAITING};
use std::alloc::AllocError;

/// Appends the process of a thread and its number there.
pub fn put_thread(text: &mut Vec<u8>, pid: u32, tid: u32) -> Result<(), AllocError>
    ensures { OnOk result (text.new.items ≡ text.old.items ++ thread_text (thread_at_id pid tid)) }
{
    put_number(text, u64::from(pid))?;
    text.push(b'.')?;
    put_number(text, u64::from(tid))
}

/// Appends at which server, where servers are told by their names.
fn put_at(text: &mut Vec<u8>, named: bool, sid: &[u32; 4]) -> Result<(), AllocError>
    ensures { OnOk result (text.new.items ≡ text.old.items ++ server_text named (record { 0 = sid.now })) }
{
    if !named {
        return Ok(());
    }
    put(text, b" at ")?;
    put_name(text, sid)
}

/// Appends which one the living server of this serial is.
fn put_server(
    text: &mut Vec<u8>,
    named: bool,
    servers: &[ServerRow],
    serial: u32,
) -> Result<(), AllocError>
    ensures { OnOk result (text.new.items
        ≡ text.old.items ++ option_map_or (server_text named) (option_map (λ server. server.sid) (servers_of servers.now serial)) []) }
{
    for server in servers {
        if server.serial == serial {
            return put_at(text, named, &server.sid);
        }
    }
    Ok(())
}

/// Whether there is a message of this number.
fn has_message(messages: &[MessageRow], number: u32) -> bool
    ensures { result ≡ list_any (λ message. message.number == number) messages.now }
{
    messages.iter().any(|message| message.number == number)
}

/// Appends how the message of this number is kept, and at which server.
fn put_kept(text: &mut Vec<u8>, named: bool, state: &State, number: u32) -> Result<(), AllocError>
    requires { AreTellable state.now }
    ensures { (file : List ℕ) → OnOk result (text.new.items
        ≡ text.old.items ++ kept_text named (kept_at (machine_of file state.now) (record { 0 = number }))) }
{
    let servers = state.servers.as_slice();
    for server in servers {
        if has_message(server.queued.as_slice(), number) {
            put(text, b", queued")?;
            return put_at(text, named, &server.sid);
        }
        if has_message(server.held.as_slice(), number) {
            put(text, b", held")?;
            return put_at(text, named, &server.sid);
        }
    }
    Ok(())
}

/// Appends what a thread is about that receives at the server of this serial.
fn put_receives(
    text: &mut Vec<u8>,
    named: bool,
    state: &State,
    pid: u32,
    serial: u32,
) -> Result<(), AllocError>
    ensures { OnOk result (text.new.items ≡ text.old.items ++ about_text named (record { 0 = pid })
        (ReceivesAt (option_map (λ server. server.sid) (servers_of state.now.servers serial)))) }
{
    put(text, b" receives")?;
    put_server(text, named, state.servers.as_slice(), serial)
}

/// Appends what a thread is about that waits for the message of this number.
fn put_waits(
    text: &mut Vec<u8>,
    named: bool,
    state: &State,
    pid: u32,
    number: u32,
) -> Result<(), AllocError>
    requires { AreTellable state.now }
    ensures { (file : List ℕ) → OnOk result (text.new.items ≡ text.old.items ++ about_text named (record { 0 = pid })
        (Waits (kept_at (machine_of file state.now) (record { 0 = number })))) }
{
    put(text, b" waits")?;
    put_kept(text, named, state, number)
}

/// Appends what a thread is about that joins another of its process.
fn put_joins(text: &mut Vec<u8>, pid: u32, tid: u32) -> Result<(), AllocError>
    ensures { (named : Bool) → OnOk result (text.new.items
        ≡ text.old.items ++ about_text named (record { 0 = pid }) (Joins (record { 0 = tid }))) }
{
    put(text, b" joins ")?;
    put_thread(text, pid, tid)
}

/// Appends what the thread of this row is about.
pub fn put_about(
    text: &mut Vec<u8>,
    named: bool,
    state: &State,
    pid: u32,
    thread: &ThreadRow,
) -> Result<(), AllocError>
    requires { AreTellable state.now }
    ensures { (file : List ℕ) → OnOk result (text.new.items ≡ text.old.items ++ about_text named (record { 0 = pid })
        (state_seen (machine_of file state.now) (thread_of thread.now).state)) }
{
    match thread.state {
        READY => put(text, b" ready"),
        RECEIVING => put_receives(text, named, state, pid, thread.waits),
        WAITING => put_waits(text, named, state, pid, thread.waits),
        JOINING => put_joins(text, pid, thread.waits),
        _ => put(text, b" idle"),
    }
}
