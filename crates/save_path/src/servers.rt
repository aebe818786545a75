//! The servers of a state are written, with their messages.

ghost use Rattle.std.specs.Prelude.{◌≡◌, ◌<◌, ◌≤◌, ◌+◌, ◌*◌, ℕ, All, length, is_some, map};
ghost use Rattle.std.specs.List.{flat_map};
ghost use Rattle.msg_queue.specs.Seats.{seat_of};
ghost use Rattle.xk_parts.specs.Shown.{server_with, servers_shown};
ghost use Rattle.server_table.specs.ServersOf.{servers_of};
ghost use Rattle.suspend_image.specs.Spelling.{message_bytes, rows_bytes, server_bytes};
ghost use Rattle.xk_base.specs.Tables.Counting.{count_below};
ghost use Rattle.xk_base.specs.declared.limits.TheConstants.{SERVER_LIMIT};
ghost use Rattle.save_path.specs.Fitting.{EachBelow, IsMessageFit, IsServerFit};
ghost use Rattle.save_path.specs.Rows.{rows_below, server_at};
ghost use Rattle.suspend_image.specs.Reading.{greatest};
ghost use Rattle.suspend_image.specs.SavedRows.{message_row, server_row};
ghost use Rattle.save_path.specs.Servers.{IsNextServer, lower_seated, table_server};
ghost use Rattle.save_path.specs.Written.{Appends, Fits};

use msg_queue::{Messages, Queues};
use server_table::{ServerSeat, Servers};
use suspend_image::{MessageRow, Sheet, write_message};
use xk_base::limits::SERVER_LIMIT;
use xk_base::{Message, Sid};

/// How many servers are alive at most.
const SEATS: u8 = SERVER_LIMIT as u8;

/// A live server and its seat.
#[derive(Clone, Copy)]
pub(crate) struct Seated {
    pub seat: u8,
    pub server: ServerSeat,
}

// The four words of a message.
fn message_words(message: Message) -> [u32; 4]
    ensures are { result ≡ message.words }
    ensures four { length result ≡ 4 }
    ensures fit { All (λ w. w ≤ greatest) message.words }
{
    message.words
}

// The row of a message.
fn message_row(message: Message) -> MessageRow
    ensures row { result ≡ message_row message }
    ensures four { length result.words ≡ 4 }
    ensures fit { IsMessageFit message }
{
    let (sender_pid, sender_tid) = match message.sender {
        Some(who) => (u32::from(who.pid.0), u32::from(who.tid.0)),
        None => (0, 0),
    };
    let words = message_words(message);
    MessageRow {
        number: message.number.0,
        sender_pid,
        sender_tid,
        kind: message.kind.number(),
        id: message.id,
        words,
        first: message.first.0,
        count: message.count,
    }
}

// Appends the messages that are told, in their order.
fn write_messages(sheet: &mut Sheet, messages: Messages<'_>)
    requires { Fits sheet.old (44 * length messages) }
    ensures rows { Appends sheet.old sheet.new (flat_map message_bytes (map message_row messages.entry)) (44 * length messages.entry) }
    ensures fit { All IsMessageFit messages.entry }
{
    for message in messages {
        write_message(sheet, &message_row(*message));
    }
}

// The four words of a server's identifier.
fn sid_words(sid: Sid) -> [u32; 4]
    ensures are { result ≡ sid.0 }
    ensures four { length result ≡ 4 }
    ensures fit { All (λ w. w ≤ greatest) sid.0 }
{
    sid.0
}

// Appends a server with the messages of its seat.
fn write_server(sheet: &mut Sheet, queues: &Queues, seated: Seated)
    requires seat { seated.seat < SERVER_LIMIT }
    requires room { Fits sheet.old 5664 }
    ensures row { let seat = seat_of queues.now seated.seat in
        Appends sheet.old sheet.new (server_bytes (server_row seated.server.serial.0 (server_with seat (table_server seated)))) 5664 }
    ensures fit { IsServerFit (server_with (seat_of queues.now seated.seat) (table_server seated)) }
{
    let Seated { seat, server } = seated;
    let queued = queues.queued_messages(seat);
    let held = queues.held_messages(seat);
    // For the prover: there are few.
    let _few = queues.is_full(seat);
    sheet.push_words(&sid_words(server.sid));
    sheet.push_words(&[
        server.serial.0,
        u32::from(server.pid.0),
        queued.left(),
        held.left(),
    ]);
    write_messages(sheet, queued);
    write_messages(sheet, held);
}

// The one with the lower serial of two servers, of which the second counts from a serial on alone.
fn lower(least: Option<Seated>, seat: u8, server: Option<ServerSeat>, from: u32) -> Option<Seated>
    ensures { result ≡ lower_seated least seat server from }
{
    let Some(server) = server else {
        return least;
    };
    if server.serial.0 < from {
        return least;
    }
    match least {
        Some(other) if other.server.serial.0 <= server.serial.0 => least,
        _ => Some(Seated { seat, server }),
    }
}

// The live server with the least serial from this one on.
fn next_server(servers: &Servers, from: u32) -> Option<Seated>
    ensures { IsNextServer (servers_of servers.now) from result }
{
    let mut least = None;
    for seat in 0..SEATS {
        least = lower(least, seat, servers.at_seat(seat), from);
    }
    least
}

/// Appends the number of live servers, and the servers in order of their serials.
pub(crate) fn write_servers(sheet: &mut Sheet, servers: &Servers, queues: &Queues)
    requires few { (bound : ℕ) → count_below bound (λ n. is_some (servers_shown servers.now queues.now n)) ≤ SERVER_LIMIT }
    requires room { Fits sheet.old (4 + 5664 * SERVER_LIMIT) }
    ensures rows { let rows = rows_below (servers_of servers.now).next (server_at (servers_shown servers.now queues.now)) in
        Appends sheet.old sheet.new (rows_bytes server_bytes rows) (4 + 5664 * SERVER_LIMIT) }
    ensures fit { EachBelow (servers_of servers.now).next (servers_shown servers.now queues.now) IsServerFit }
{
    let at = sheet.as_slice().len() as u32;
    sheet.push_word(0);
    let mut many = 0;
    let mut from = 0;
    // All serials are below it.
    let _end = servers.next_serial();
    while let Some(seated) = next_server(servers, from) {
        write_server(sheet, queues, seated);
        many += 1;
        from = seated.server.serial.0 + 1;
    }
    sheet.set_word(at, many);
}
