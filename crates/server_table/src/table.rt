//! The table of servers.

ghost use Rattle.std.specs.Prelude.{◌≡◌, ◌<◌, ◌≤◌, All, AllPairs, Option, IfOk, IfSome, OnOk, OnErr, is_none, length, position, slice_get};
ghost use Rattle.std.specs.Prelude.{vec_len};
ghost use Rattle.std.specs.List.Sorted.{IsStrictlyIncreasing};
ghost use Rattle.std.specs.Option.{option_map};
ghost use Rattle.xk_base.specs.declared.limits.TheConstants.{SERVER_LIMIT};
ghost use Rattle.server_table.specs.Listed.{serials_of, HaveTwoSids, listed_servers};
ghost use Rattle.server_table.specs.Seats.{has_serial, seat_has_sid, seat_with, own_serial, AreApart, AreCounted};
ghost use Rattle.server_table.specs.ServerState.{no_servers, with_sid, least_of, at_seat, free_seat, made_answer, with_server};
ghost use Rattle.server_table.specs.ServerState.{without_server};

use std::alloc::Global;
use xk_base::limits::SERVER_LIMIT;
use xk_base::{NoMemory, Pid, Serial, Sid, XousError};

/// How many servers are alive at most.
const SEATS: usize = SERVER_LIMIT as usize;

/// What stands at a seat: a living server.
#[derive(Clone, Copy, Debug, PartialEq, Eq)]
pub struct ServerSeat {
    /// Its identifier.
    pub sid: Sid,
    pub serial: Serial,
    /// The process that owns it.
    pub pid: Pid,
}

/// The living servers by seat, and the serial that the next one gets.
#[derive(Debug, Drop)]
pub struct Servers {
    next: u32,
    seats: Vec<Option<ServerSeat>>,
    ghost size: { vec_len seats ≡ SERVER_LIMIT },
    ghost apart: { AreApart seats.items next },
    ghost counted: { AreCounted seats.items next },
}

/// The number of the server's serial, where a server of the process stands at the seat.
fn own_serial(seat: &Option<ServerSeat>, pid: Pid) -> Option<u32>
    ensures { result ≡ own_serial pid seat.now }
{
    let server = seat.filter(|server| server.pid == pid)?;
    Some(server.serial.0)
}

/// Whether the server with that serial stands at the seat.
fn has_serial(seat: &Option<ServerSeat>, serial: Serial) -> bool
    ensures { result ≡ has_serial serial.0 seat.now }
{
    seat.is_some_and(|server| server.serial == serial)
}

/// Whether the server with that identifier stands at the seat.
fn has_sid(seat: &Option<ServerSeat>, sid: Sid) -> bool
    ensures { result ≡ seat_has_sid sid seat.now }
{
    seat.is_some_and(|server| server.sid == sid)
}

/// What sits at the seat where each server sits at its place in the list.
fn seated(rows: &[ServerSeat], seat: usize) -> Option<ServerSeat>
    ensures { result ≡ slice_get rows.now seat }
{
    rows.get(seat).copied()
}

impl Servers {
    ghost use Rattle.server_table.specs.ServersOf.{servers_of};

    /// A table without servers. It takes all memory that they will ever need.
    pub fn new(alloc: Global) -> Result<Servers, NoMemory>
        ensures { IfOk result (λ t. servers_of t ≡ no_servers) }
    {
        let Ok(mut seats) = Vec::with_capacity(alloc, SEATS) else {
            return Err(NoMemory);
        };
        for _seat in 0..SEATS {
            seats.push_reserved(None);
        }
        Ok(Servers { next: 1, seats })
    }

    /// A table with exactly these servers, each at the seat of its place in the list, whose next server
    /// gets the serial `next`. It takes all memory that servers will ever need.
    pub fn resume(alloc: Global, rows: &[ServerSeat], next: u32) -> Result<Servers, NoMemory>
        requires few { length rows.now ≤ SERVER_LIMIT }
        requires ascending { IsStrictlyIncreasing (serials_of rows.now) }
        requires given { All (λ serial. serial < next) (serials_of rows.now) }
        requires named { AllPairs HaveTwoSids rows.now }
        ensures { IfOk result (λ t. servers_of t ≡ listed_servers rows.now next) }
    {
        let Ok(mut seats) = Vec::with_capacity(alloc, SEATS) else {
            return Err(NoMemory);
        };
        for seat in 0..SEATS {
            seats.push_reserved(seated(rows, seat));
        }
        Ok(Servers { next, seats })
    }

    /// The serial that the next server gets.
    pub fn next_serial(&self) -> Serial
        ensures { result.0 ≡ (servers_of self.now).next }
    {
        Serial(self.next)
    }

    /// The seat of the living server with that serial.
    fn seat_of(&self, s: Serial) -> Option<usize>
        ensures found { result ≡ seat_with self.now.seats.items s.0 }
        ensures within { IfSome result (λ k. k < SERVER_LIMIT) }
    {
        self.seats.iter().position(|seat| has_serial(seat, s))
    }

    /// The seat of the living server with that identifier.
    fn seat_named(&self, sid: Sid) -> Option<usize>
        ensures found { result ≡ position (seat_has_sid sid) self.now.seats.items }
        ensures within { IfSome result (λ k. k < SERVER_LIMIT) }
    {
        self.seats.iter().position(|seat| has_sid(seat, sid))
    }

    /// The least empty seat.
    fn empty_seat(&self) -> Option<usize>
        ensures found { result ≡ position is_none self.now.seats.items }
        ensures within { IfSome result (λ k. k < SERVER_LIMIT) }
    {
        self.seats.iter().position(|seat| seat.is_none())
    }

    /// The living server with that identifier; `None` exactly where no living server has it.
    pub fn find(&self, sid: Sid) -> Option<Serial>
        ensures { result ≡ with_sid sid (servers_of self.now) }
    {
        let seat = self.seat_named(sid)?;
        Some(self.seats[seat]?.serial)
    }

    /// The process of the server; `None` exactly where no living server has that serial.
    pub fn owner(&self, s: Serial) -> Option<Pid>
        ensures { result ≡ option_map (λ v. v.pid) ((servers_of self.now).live s.0) }
    {
        let seat = self.seat_of(s)?;
        Some(self.seats[seat]?.pid)
    }

    /// The seat of the server; `None` exactly where no living server has that serial.
    pub fn seat(&self, s: Serial) -> Option<u8>
        ensures answer { result ≡ option_map (λ v. v.seat) ((servers_of self.now).live s.0) }
        ensures within { IfSome result (λ seat. seat < SERVER_LIMIT) }
    {
        Some(self.seat_of(s)? as u8)
    }

    /// The living server of the process with the least serial; `None` exactly where it has none.
    pub fn any_of(&self, pid: Pid) -> Option<Serial>
        ensures { result ≡ least_of pid (servers_of self.now) }
    {
        let serials = self.seats.iter().filter_map(|seat| own_serial(seat, pid));
        serials.min().map(Serial)
    }

    /// The living server at the seat; `None` exactly where the seat is empty.
    pub fn at_seat(&self, seat: u8) -> Option<ServerSeat>
        requires { seat < SERVER_LIMIT }
        ensures { result ≡ at_seat seat (servers_of self.now) }
    {
        self.seats[seat as usize]
    }

    /// Makes a server of the process, at the least empty seat. It is refused with `ServerExists` exactly
    /// where a living server has the identifier, and else with `InvalidLimit` exactly where the greatest
    /// number of servers is alive.
    pub fn make(&mut self, sid: Sid, pid: Pid) -> Result<Serial, XousError>
        requires { (servers_of self.old).next < 4294967295 }
        ensures answer { result ≡ made_answer sid (servers_of self.old) }
        ensures ok { OnOk result (servers_of self.new ≡ with_server sid pid (free_seat (servers_of self.old)) (servers_of self.old)) }
        ensures err { OnErr result (self.new ≡ self.old) }
    {
        if self.find(sid).is_some() {
            return Err(XousError::ServerExists);
        }
        let Some(seat) = self.empty_seat() else {
            return Err(XousError::InvalidLimit);
        };
        let serial = Serial(self.next);
        self.seats[seat] = Some(ServerSeat { sid, serial, pid });
        self.next += 1;
        Ok(serial)
    }

    /// The server is no longer alive, if it was. Its seat may be used again, and its serial never.
    pub fn remove(&mut self, s: Serial)
        ensures { servers_of self.new ≡ without_server s.0 (servers_of self.old) }
    {
        if let Some(seat) = self.seat_of(s) {
            self.seats[seat] = None;
        }
    }
}
