//! Whether the machine can have the servers and messages of a state that was read, told from the rows.

ghost use Rattle.std.specs.Prelude.{◌≡◌, ◌↔◌, ◌≤◌, ◌&&◌, nat_lt, nat_le, length, IsTrue, IfOk};
ghost use Rattle.std.specs.List.{list_all};
ghost use Rattle.snapshot_matching.specs.ServerParts.{has_slots as has_slots_of, is_server_living as is_server_living_of};
ghost use Rattle.snapshot_matching.specs.ServerParts.{is_apart as is_apart_of, is_below_next as is_below_next_of};
ghost use Rattle.snapshot_matching.specs.ServerParts.{leads_below as leads_below_of, are_few_apart as are_few_apart_of};

use snapshot_rows::{MessageRow, ProcRow, ServerRow, is_alive};
use xk_base::limits::{MESSAGE_LIMIT, SERVER_LIMIT};

fn is_server_living(procs: &[ProcRow], server: &ServerRow) -> bool
    ensures { result ≡ is_server_living_of procs.now server.now }
{
    is_alive(procs, server.pid)
}

fn all_servers_living(procs: &[ProcRow], servers: &[ServerRow]) -> bool
    ensures { result ≡ list_all (is_server_living_of procs.now) servers.now }
{
    servers.iter().all(|server| is_server_living(procs, server))
}

fn has_slots(server: &ServerRow) -> bool
    ensures { result ≡ has_slots_of server.now }
{
    server.queued.as_slice().len() + server.held.as_slice().len() <= MESSAGE_LIMIT as usize
}

fn all_have_slots(servers: &[ServerRow]) -> bool
    ensures { result ≡ list_all has_slots_of servers.now }
{
    servers.iter().all(|server| has_slots(server))
}

/// Whether they are one server, or have two identifiers.
fn is_apart(server: &ServerRow, other: &ServerRow) -> bool
    ensures { result ≡ is_apart_of server.now other.now }
{
    server.serial == other.serial || server.sid != other.sid
}

fn is_apart_from_all(servers: &[ServerRow], server: &ServerRow) -> bool
    ensures { result ≡ list_all (is_apart_of server.now) servers.now }
{
    servers.iter().all(|other| is_apart(server, other))
}

fn all_are_apart(servers: &[ServerRow]) -> bool
    ensures { result ≡ list_all (λ s. list_all (is_apart_of s) servers.now) servers.now }
{
    servers
        .iter()
        .all(|server| is_apart_from_all(servers, server))
}

fn are_numbers_below(messages: &[MessageRow], number: u32) -> bool
    ensures { result ≡ list_all (λ m. nat_lt m.number number) messages.now }
{
    messages.iter().all(|message| message.number < number)
}

fn is_below_next(number: u32, serial: u32, server: &ServerRow) -> bool
    ensures { result ≡ is_below_next_of number serial server.now }
{
    server.serial < serial
        && are_numbers_below(server.queued.as_slice(), number)
        && are_numbers_below(server.held.as_slice(), number)
}

fn all_below_next(number: u32, serial: u32, servers: &[ServerRow]) -> bool
    ensures { result ≡ list_all (is_below_next_of number serial) servers.now }
{
    servers
        .iter()
        .all(|server| is_below_next(number, serial, server))
}

/// Whether all connections of a process lead to servers below the next one.
fn leads_below(serial: u32, process: &ProcRow) -> bool
    ensures { result ≡ leads_below_of serial process.now }
{
    process.serials.as_slice().iter().all(|s| *s < serial)
}

fn all_lead_below(serial: u32, procs: &[ProcRow]) -> bool
    ensures { result ≡ list_all (leads_below_of serial) procs.now }
{
    procs.iter().all(|process| leads_below(serial, process))
}

/// Whether the next number and the next serial are above all that servers and connections have.
pub fn all_are_below(number: u32, serial: u32, procs: &[ProcRow], servers: &[ServerRow]) -> bool
    ensures { result ≡ (list_all (is_below_next_of number serial) servers.now && list_all (leads_below_of serial) procs.now) }
{
    all_below_next(number, serial, servers) && all_lead_below(serial, procs)
}

/// What of the servers takes no memory to tell. The limits are looked at first, so that few identifiers
/// are compared.
pub fn are_few_apart(procs: &[ProcRow], servers: &[ServerRow]) -> bool
    ensures { result ≡ are_few_apart_of procs.now servers.now }
{
    servers.len() <= SERVER_LIMIT as usize
        && all_have_slots(servers)
        && all_servers_living(procs, servers)
        && all_are_apart(servers)
}
