//! Servers by identifier, serial and seat.

use crate::expecting::expect_eq;
use server_table::{ServerSeat, Servers};
use xk_base::{Pid, Serial, Sid, XousError};

const SID: Sid = Sid([1, 2, 3, 4]);

fn make(servers: &mut Servers, sid: Sid, pid: u8) -> Option<Result<Serial, XousError>> {
    if servers.next_serial().0 < u32::MAX {
        Some(servers.make(sid, Pid(pid)))
    } else {
        None
    }
}

#[test]
fn a_seat_is_used_again_and_a_serial_never(rt: HostRuntime) {
    let mut servers = Servers::new(rt.alloc()).expect(&rt, "memory");
    expect_eq(&rt, servers.next_serial(), Serial(1));
    expect_eq(&rt, make(&mut servers, SID, 2), Some(Ok(Serial(1))));
    expect_eq(
        &rt,
        make(&mut servers, SID, 4),
        Some(Err(XousError::ServerExists)),
    );
    expect_eq(&rt, servers.find(SID), Some(Serial(1)));
    servers.remove(Serial(1));
    expect_eq(&rt, servers.find(SID), None);
    expect_eq(&rt, make(&mut servers, SID, 4), Some(Ok(Serial(2))));
    expect_eq(&rt, servers.seat(Serial(2)), Some(0));
    expect_eq(&rt, servers.owner(Serial(2)), Some(Pid(4)));
    expect_eq(&rt, servers.seat(Serial(1)), None);
    expect_eq(&rt, servers.owner(Serial(1)), None);
    expect_eq(
        &rt,
        servers.at_seat(0).map(|server| server.serial),
        Some(Serial(2)),
    );
    expect_eq(&rt, servers.at_seat(63), None);
}

#[test]
fn servers_go_on_after_a_resume(rt: HostRuntime) {
    let rows = [
        ServerSeat {
            sid: SID,
            serial: Serial(3),
            pid: Pid(4),
        },
        ServerSeat {
            sid: Sid([0; 4]),
            serial: Serial(7),
            pid: Pid(2),
        },
    ];
    let mut servers = Servers::resume(rt.alloc(), &rows, 9).expect(&rt, "memory");
    expect_eq(&rt, servers.next_serial(), Serial(9));
    for (seat, row) in rows.iter().enumerate() {
        expect_eq(&rt, servers.find(row.sid), Some(row.serial));
        expect_eq(&rt, servers.owner(row.serial), Some(row.pid));
        expect_eq(&rt, servers.seat(row.serial), Some(seat as u8));
    }
    expect_eq(&rt, servers.owner(Serial(1)), None);
    expect_eq(&rt, servers.any_of(Pid(2)), Some(Serial(7)));
    expect_eq(&rt, make(&mut servers, Sid([9; 4]), 2), Some(Ok(Serial(9))));
    expect_eq(&rt, servers.seat(Serial(9)), Some(2));
    expect_eq(&rt, servers.next_serial(), Serial(10));
}

#[test]
fn servers_are_few(rt: HostRuntime) {
    let mut servers = Servers::new(rt.alloc()).expect(&rt, "memory");
    for k in 0..64 {
        let pid = if k < 40 { 2 } else { 3 };
        expect_eq(
            &rt,
            make(&mut servers, Sid([k, 0, 0, 0]), pid),
            Some(Ok(Serial(k + 1))),
        );
    }
    expect_eq(
        &rt,
        make(&mut servers, SID, 2),
        Some(Err(XousError::InvalidLimit)),
    );
    expect_eq(
        &rt,
        make(&mut servers, Sid([0; 4]), 2),
        Some(Err(XousError::ServerExists)),
    );
    servers.remove(Serial(1));
    expect_eq(&rt, make(&mut servers, SID, 3), Some(Ok(Serial(65))));
    expect_eq(&rt, servers.seat(Serial(65)), Some(0));
    expect_eq(&rt, servers.any_of(Pid(2)), Some(Serial(2)));
    expect_eq(&rt, servers.any_of(Pid(3)), Some(Serial(41)));
    expect_eq(&rt, servers.any_of(Pid(4)), None);
}
