//! The live server that a thread names.

ghost use Rattle.std.specs.Prelude.{◌≡◌, IfSome};
ghost use Rattle.std.specs.Option.{option_map};
ghost use Rattle.server_table.specs.ServersOf.{servers_of};
ghost use Rattle.xk_parts.specs.Seats.{IsSeatOf, own_serial};

use server_table::Servers;
use xk_base::{Pid, Serial, Sid};

/// A live server and its seat.
#[derive(Clone, Copy, Debug, PartialEq, Eq)]
pub struct Seated {
    /// The server's serial.
    pub serial: Serial,
    /// The seat of its messages.
    pub seat: u8,
}

/// The live server of the process with that identifier.
pub fn own_server(servers: &Servers, pid: Pid, sid: Sid) -> Option<Seated>
    ensures serial { option_map (λ s. s.serial) result ≡ own_serial pid sid (servers_of servers.now) }
    ensures seat { IfSome result (λ s. IsSeatOf (servers_of servers.now) s.serial.0 s.seat) }
{
    let serial = servers.find(sid)?;
    if servers.owner(serial)? != pid {
        return None;
    }
    let seat = servers.seat(serial)?;
    Some(Seated { serial, seat })
}
