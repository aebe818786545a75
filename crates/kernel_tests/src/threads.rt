//! Threads by id: their order, their ids, and who receives.

ghost use Rattle.std.specs.Prelude.{◌≡◌};

use crate::expecting::expect_eq;
use thread_table::{Thread, ThreadState, Threads};
use xk_base::{Number, Pid, Regs, Serial, ThreadId, Tid};

fn id(pid: u8, tid: u8) -> ThreadId
    ensures { result ≡ record { pid = record { 0 = pid }; tid = record { 0 = tid } } }
{
    ThreadId {
        pid: Pid(pid),
        tid: Tid(tid),
    }
}

fn thread(pc: u32, state: ThreadState) -> Thread {
    Thread {
        pc,
        regs: Regs::new(),
        state,
    }
}

#[test]
fn order_goes_round(rt: HostRuntime) {
    let mut threads = Threads::new(rt.alloc(), 3).expect(&rt, "memory");
    expect_eq(&rt, threads.next_ready_after(id(2, 2)), None);
    threads.start(id(2, 2), thread(4, ThreadState::Ready));
    expect_eq(&rt, threads.next_ready_after(id(2, 2)), Some(id(2, 2)));
    threads.start(id(2, 1), thread(0, ThreadState::Idle));
    threads.start(id(4, 3), thread(8, ThreadState::Ready));
    threads.start(id(4, 31), thread(12, ThreadState::Waiting(Number(1))));
    for (from, next) in [
        ((2, 2), (4, 3)),
        ((2, 1), (2, 2)),
        ((4, 3), (2, 2)),
        ((3, 7), (4, 3)),
    ] {
        expect_eq(
            &rt,
            threads.next_ready_after(id(from.0, from.1)),
            Some(id(next.0, next.1)),
        );
    }
    threads.end(id(2, 2));
    expect_eq(&rt, threads.next_ready_after(id(2, 2)), Some(id(4, 3)));
    threads.end_process(Pid(4));
    expect_eq(&rt, threads.next_ready_after(id(2, 2)), None);
}

#[test]
fn tids_are_counted_from_2(rt: HostRuntime) {
    let mut threads = Threads::new(rt.alloc(), 2).expect(&rt, "memory");
    threads.start(id(3, 1), thread(0, ThreadState::Idle));
    expect_eq(&rt, threads.live(Pid(3)), 0);
    expect_eq(&rt, threads.free_tid(Pid(3)), Some(Tid(2)));
    for tid in 2..32 {
        expect_eq(&rt, threads.free_tid(Pid(3)), Some(Tid(tid)));
        if threads.get(id(3, tid)).is_none() {
            threads.start(id(3, tid), thread(0, ThreadState::Ready));
        }
    }
    expect_eq(&rt, threads.free_tid(Pid(3)), None);
    expect_eq(&rt, threads.live(Pid(3)), 30);
    expect_eq(&rt, threads.live(Pid(2)), 0);
}

#[test]
fn the_lowest_receiver_is_found(rt: HostRuntime) {
    let mut threads = Threads::new(rt.alloc(), 2).expect(&rt, "memory");
    threads.start(id(3, 9), thread(0, ThreadState::Receiving(Serial(1))));
    threads.start(id(3, 4), thread(0, ThreadState::Receiving(Serial(1))));
    threads.start(id(3, 2), thread(0, ThreadState::Receiving(Serial(2))));
    expect_eq(&rt, threads.receiver(Serial(1)), Some(id(3, 4)));
    threads.set(id(3, 4), thread(16, ThreadState::Ready));
    expect_eq(&rt, threads.receiver(Serial(1)), Some(id(3, 9)));
    expect_eq(&rt, threads.receiver(Serial(3)), None);
    expect_eq(&rt, threads.get(id(3, 4)).map(|thread| thread.pc), Some(16));
    expect_eq(&rt, threads.get(id(3, 5)).map(|thread| thread.pc), None);
    expect_eq(&rt, threads.get(id(1, 0)).map(|thread| thread.pc), None);
}
