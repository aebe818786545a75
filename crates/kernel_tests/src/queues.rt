//! Each call of the queues.

use crate::expecting::expect_eq;
use msg_queue::{Held, Queues};
use std::process::Abort;
use xk_base::{Message, MsgKind, Number, Pid, ThreadId, Tid, Vpn};

/// A thread of pid 9, and one of pid 8.
const NINTH: ThreadId = ThreadId {
    pid: Pid(9),
    tid: Tid(2),
};

const EIGHTH: ThreadId = ThreadId {
    pid: Pid(8),
    tid: Tid(2),
};

/// A message without pages.
fn message(n: u32, kind: MsgKind, sender: Option<ThreadId>) -> Held {
    Held {
        msg: Message {
            number: Number(n),
            sender,
            kind,
            id: 0,
            words: [0; 4],
            first: Vpn(0),
            count: 0,
        },
        loan: None,
    }
}

/// Lets a message without a loan go and tells its number.
fn number_of(rt: &impl Abort, h: Option<Held>) -> Option<u32> {
    match h {
        None => None,
        Some(Held { msg, loan }) => {
            match loan {
                None => {}
                Some(_) => panic!(rt; "a loan"),
            }
            Some(msg.number.0)
        }
    }
}

/// Ends queues without messages.
fn end(rt: &impl Abort, queues: Queues) {
    for seat in 0..64 {
        assert_eq!(rt; queues.used(seat), 0);
    }
    queues.close();
}

#[test]
fn each_call(rt: HostRuntime) {
    let mut queues = Queues::new(rt.alloc()).expect(&rt, "memory");
    assert!(&rt; !queues.is_full(3));
    queues.put(3, message(4, MsgKind::BlockingScalar, Some(NINTH)));
    assert!(&rt; !queues.is_full(3));
    queues.put(3, message(5, MsgKind::Scalar, None));
    assert!(&rt; !queues.is_full(3));
    queues.hold(3, message(2, MsgKind::BlockingScalar, Some(NINTH)));
    assert!(&rt; !queues.is_full(3));
    queues.hold_at(3, 0, message(1, MsgKind::BlockingScalar, Some(EIGHTH)));

    expect_eq(&rt, (queues.used(2), queues.used(3)), (0, 4));
    expect_eq(
        &rt,
        queues.queued_at(3, 1).map(|m| m.number),
        Some(Number(5)),
    );
    expect_eq(&rt, queues.queued_at(3, 2).map(|m| m.number), None);
    expect_eq(&rt, queues.held_at(3, 0).map(|m| m.number), Some(Number(1)));
    expect_eq(
        &rt,
        queues.held(3, Number(2)).map(|m| m.number),
        Some(Number(2)),
    );
    expect_eq(&rt, queues.held(3, Number(4)).map(|m| m.number), None);
    expect_eq(&rt, queues.held_place(3, Number(2)), Some(1));
    expect_eq(&rt, queues.held_place(3, Number(4)), None);
    expect_eq(&rt, queues.first_of(3, Pid(9)), Some(Number(2)));
    expect_eq(&rt, queues.first_of(3, Pid(8)), Some(Number(1)));
    expect_eq(&rt, queues.first_of(3, Pid(7)), None);

    expect_eq(
        &rt,
        number_of(&rt, queues.take_queued(3, Number(5))),
        Some(5),
    );
    expect_eq(&rt, number_of(&rt, queues.take_held(3, Number(2))), Some(2));
    expect_eq(&rt, number_of(&rt, queues.take_held(3, Number(1))), Some(1));
    expect_eq(&rt, number_of(&rt, queues.take_oldest(3)), Some(4));
    end(&rt, queues);
}
