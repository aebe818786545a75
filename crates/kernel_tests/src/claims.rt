//! Claims on interrupts, and what is pending.

use crate::expecting::expect_eq;
use irq_claims::{Claims, Due};
use xk_base::{Pid, XousError};

#[test]
fn pending_is_a_set(rt: HostRuntime) {
    let mut claims = Claims::new();
    expect_eq(&rt, claims.claim(4, Pid(2), 0x1_0000, 9), Ok(()));
    expect_eq(&rt, claims.pend(4), Some(Pid(2)));
    expect_eq(&rt, claims.pend(4), Some(Pid(2)));
    let due = Due {
        k: 4,
        handler: 0x1_0000,
        arg: 9,
    };
    expect_eq(&rt, claims.take_lowest(Pid(3)), None);
    expect_eq(&rt, claims.take_lowest(Pid(2)), Some(due));
    expect_eq(&rt, claims.take_lowest(Pid(2)), None);
}

#[test]
fn claims_are_exclusive(rt: HostRuntime) {
    let mut claims = Claims::new();
    expect_eq(
        &rt,
        claims.free(4, Pid(2)),
        Err(XousError::InterruptNotFound),
    );
    expect_eq(&rt, claims.pend(4), None);
    expect_eq(&rt, claims.claim(4, Pid(2), 0x1_0000, 0), Ok(()));
    expect_eq(
        &rt,
        claims.claim(4, Pid(3), 0x1_0000, 0),
        Err(XousError::InterruptInUse),
    );
    expect_eq(
        &rt,
        claims.free(4, Pid(3)),
        Err(XousError::InterruptNotFound),
    );
    expect_eq(&rt, claims.get(4).map(|claim| claim.pid), Some(Pid(2)));
    expect_eq(&rt, claims.free(4, Pid(2)), Ok(()));
    expect_eq(&rt, claims.get(4), None);
}

#[test]
fn the_dead_claim_nothing(rt: HostRuntime) {
    let mut claims = Claims::new();
    for (k, pid) in [(0, 2), (30, 3), (31, 2)] {
        expect_eq(&rt, claims.claim(k, Pid(pid), 0x1_0000, 0), Ok(()));
        expect_eq(&rt, claims.pend(k), Some(Pid(pid)));
    }
    claims.end(Pid(2));
    expect_eq(&rt, claims.take_lowest(Pid(2)), None);
    expect_eq(&rt, claims.get(31), None);
    expect_eq(&rt, claims.take_lowest(Pid(3)).map(|due| due.k), Some(30));
}
