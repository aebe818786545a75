//! Connections and heaps of processes, and what the dead have.

use crate::expecting::expect_eq;
use process_table::Processes;
use xk_base::limits::CONNECTION_LIMIT;
use xk_base::{Cid, Pid, Serial, XousError};

#[test]
fn connections_stay(rt: HostRuntime) {
    let mut processes = Processes::new(rt.alloc(), 3).expect(&rt, "memory");
    expect_eq(&rt, processes.connect(Pid(3), Serial(1)), Ok(Cid(2)));
    expect_eq(&rt, processes.connect(Pid(3), Serial(1)), Ok(Cid(2)));
    // The server with serial 1 dies, and another is made under the same identifier.
    expect_eq(&rt, processes.connect(Pid(3), Serial(2)), Ok(Cid(3)));
    expect_eq(&rt, processes.server_of(Pid(3), Cid(2)), Some(Serial(1)));
    expect_eq(&rt, processes.server_of(Pid(3), Cid(3)), Some(Serial(2)));
    expect_eq(&rt, processes.server_of(Pid(3), Cid(1)), None);
    expect_eq(&rt, processes.server_of(Pid(3), Cid(4)), None);
    expect_eq(&rt, processes.server_of(Pid(4), Cid(2)), None);
}

#[test]
fn connections_are_few(rt: HostRuntime) {
    let mut processes = Processes::new(rt.alloc(), 1).expect(&rt, "memory");
    for k in 0..CONNECTION_LIMIT {
        expect_eq(&rt, processes.room(Pid(2), Serial(k)), true);
        expect_eq(&rt, processes.connect(Pid(2), Serial(k)), Ok(Cid(k + 2)));
    }
    expect_eq(&rt, processes.room(Pid(2), Serial(32)), false);
    expect_eq(
        &rt,
        processes.connect(Pid(2), Serial(32)),
        Err(XousError::InvalidLimit),
    );
    expect_eq(&rt, processes.room(Pid(2), Serial(31)), true);
    expect_eq(&rt, processes.connect(Pid(2), Serial(31)), Ok(Cid(33)));
}

#[test]
fn the_dead_have_nothing(rt: HostRuntime) {
    let mut processes = Processes::new(rt.alloc(), 2).expect(&rt, "memory");
    processes.set_heap(Pid(2), 4096);
    processes.set_heap(Pid(3), 8192);
    expect_eq(&rt, processes.connect(Pid(3), Serial(1)), Ok(Cid(2)));
    processes.end(Pid(3));
    expect_eq(&rt, processes.procs(), 2);
    expect_eq(&rt, processes.heap(Pid(2)), 4096);
    expect_eq(&rt, processes.heap(Pid(3)), 0);
    expect_eq(&rt, processes.server_of(Pid(3), Cid(2)), None);
    for (pid, alive) in [(0, false), (1, false), (2, true), (3, false), (4, false)] {
        expect_eq(&rt, processes.alive(Pid(pid)), alive);
    }
}
