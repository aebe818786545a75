//! A row keeps its order.

use crate::expecting::expect_eq;
use xk_base::Row;

#[test]
fn keeps_order(rt: HostRuntime) {
    let mut row = Row::new(rt.alloc());
    row.push(7u32).expect(&rt, "memory");
    row.push(9u32).expect(&rt, "memory");
    row.extend_from_slice(&[7, 8]).expect(&rt, "memory");
    expect_eq(&rt, row.as_slice(), &[7, 9, 7, 8]);
}
