//! A log keeps the records of one step.

use crate::expecting::expect_eq;
use xk_base::{Log, Pid, Rec, What};

#[test]
fn keeps_records_of_one_step(rt: HostRuntime) {
    let mut log = Log::new(rt.alloc(), 2).expect(&rt, "memory");
    log.push(What::Gone(Pid(2)));
    log.clear(7);
    log.push(What::Gone(Pid(3)));
    let gone = Rec {
        step: 7,
        what: What::Gone(Pid(3)),
    };
    expect_eq(&rt, log.as_slice(), &[gone]);
}
