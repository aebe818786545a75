//! The chains of a ring, followed by its link words.

use super::*;
use std::process::Abort;
use xk_base::{MsgKind, Vpn};

/// Puts a scalar of that number.
fn put(rt: &impl Abort, ring: &mut Ring, n: u32) {
    assert!(rt; !ring.is_full());
    ring.put(Held {
        msg: Message {
            number: Number(n),
            sender: None,
            kind: MsgKind::Scalar,
            id: 0,
            words: [n; 4],
            first: Vpn(0),
            count: 0,
        },
        loan: None,
    });
}

/// Lets a scalar go and tells its number.
fn number_of(rt: &impl Abort, h: Option<Held>) -> Option<u32> {
    let Held { msg, loan } = h?;
    match loan {
        None => Some(msg.number.0),
        Some(_) => panic!(rt; "a scalar with a loan"),
    }
}

/// Follows the link words from a slot on: over the wanted slots, and then to `after`.
fn follow(rt: &impl Abort, next: &[u8], first: u8, wanted: &[u8], after: u8) {
    let mut slot = first;
    for each in wanted {
        assert_eq!(rt; slot, *each);
        slot = *next.get(slot as usize).expect(rt, "a slot");
    }
    assert_eq!(rt; slot, after);
}

#[test]
fn ring_walk(rt: HostRuntime) {
    let mut ring = Ring::new(rt.alloc()).expect(&rt, "memory");
    for n in 1..4 {
        put(&rt, &mut ring, n);
    }
    let oldest = ring.take_oldest().expect(&rt, "a message");
    assert!(&rt; !ring.is_full());
    ring.hold(oldest);
    assert_eq!(rt; number_of(&rt, ring.take_queued(Number(3))), Some(3));
    put(&rt, &mut ring, 4);
    {
        let Ring {
            slots,
            next,
            free,
            queued,
            held,
            last_queued,
            last_held,
        } = &ring;
        assert_eq!(rt; slots.len(), 128);
        follow(&rt, next.as_slice(), *queued, &[1, 2], NONE);
        follow(&rt, next.as_slice(), *held, &[0], NONE);
        follow(&rt, next.as_slice(), *free, &[3], 4);
        assert_eq!(rt; (*last_queued, *last_held), (2, 0));
    }
    assert_eq!(rt; number_of(&rt, ring.take_held(Number(1))), Some(1));
    {
        let Ring {
            slots: _,
            next,
            free,
            queued: _,
            held,
            last_queued: _,
            last_held,
        } = &ring;
        follow(&rt, next.as_slice(), *free, &[0], 3);
        assert_eq!(rt; (*held, *last_held), (NONE, NONE));
    }
    assert_eq!(rt; number_of(&rt, ring.take_oldest()), Some(2));
    assert_eq!(rt; number_of(&rt, ring.take_oldest()), Some(4));
    assert_eq!(rt; ring.used(), 0);
    ring.close();
}
