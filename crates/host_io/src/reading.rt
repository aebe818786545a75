//! Files are read to their ends.

ghost use Rattle.std.specs.Prelude.{◌≡◌, ◌<◌, ◌≤◌, ◌^◌, true, IsTrue, IfOk, OnOk, Err};
ghost use Rattle.xk_base.specs.Outside.{Rose};
ghost use Rattle.xk_ports.specs.Host.{other_slot};
ghost use Rattle.host_io.specs.Reading.{Asked, AsksFor, IsContent, IsContentOf, IsRead};

use std::alloc::Global;
use xk_ports::{FileSlot, Host};

/// What a file has: all its bytes, or more than were asked for.
#[derive(Debug, Drop)]
pub enum Content {
    Whole(Vec<u8>),
    TooLong,
}

/// Why a file isn't read.
#[derive(Clone, Copy, Debug, PartialEq, Eq)]
pub enum ReadError {
    Fault,
    NoMemory,
}

/// How many bytes are asked for at a time.
pub const PIECE: usize = 4096;

/// Reads what is left at a slot to its end, or until more than `limit` bytes came.
fn read_rest<H: Host>(
    alloc: Global,
    host: &mut H,
    which: FileSlot,
    limit: usize,
) -> Result<Content, ReadError>
    requires picked { IsTrue (H.is_picked host.old which) }
    requires few { limit < 2 ^ 32 }
    ensures content { IfOk result (IsContent (H.left host.old which) limit) }
    ensures end { IfOk result (IsRead (H.left host.new which)) }
    ensures cause { result ≡ Err ReadError.Fault → Rose (H.faults host.old) (H.faults host.new) }
    ensures asked { H.asked host.new ≡ H.asked host.old }
    ensures file { H.file host.new ≡ H.file host.old }
    ensures other { H.left host.new (other_slot which) ≡ H.left host.old (other_slot which) }
    ensures never_falls { H.faults host.old ≤ H.faults host.new }
{
    let mut bytes = Vec::new(alloc);
    let mut piece = [0u8; PIECE];
    'pieces: while bytes.len() <= limit {
        let Ok(count) = host.read(which, &mut piece) else {
            return Err(ReadError::Fault);
        };
        if count == 0 {
            return Ok(Content::Whole(bytes));
        }
        if bytes.extend_from_slice(&piece[..count]).is_err() {
            return Err(ReadError::NoMemory);
        }
    }
    Ok(Content::TooLong)
}

/// Reads the file of that name to its end, or until more than `limit` bytes came.
pub fn read_file<H: Host>(
    alloc: Global,
    host: &mut H,
    which: FileSlot,
    name: &str,
    limit: usize,
) -> Result<Content, ReadError>
    requires { limit < 2 ^ 32 }
    ensures content { IfOk result (IsContentOf (H.file host.old) name.now limit) }
    ensures end { IfOk result (IsRead (H.left host.new which)) }
    ensures cause { result ≡ Err ReadError.Fault → Rose (H.faults host.old) (H.faults host.new) }
    ensures asked { AsksFor (H.asked host.old) (H.asked host.new) which name.now }
    ensures picked { OnOk result (Asked (H.asked host.old) (H.asked host.new) which name.now true) }
    ensures file { H.file host.new ≡ H.file host.old }
    ensures other { H.left host.new (other_slot which) ≡ H.left host.old (other_slot which) }
    ensures never_falls { H.faults host.old ≤ H.faults host.new }
{
    match host.pick_file(which, name) {
        Ok(()) => read_rest(alloc, host, which, limit),
        Err(_) => Err(ReadError::Fault),
    }
}
