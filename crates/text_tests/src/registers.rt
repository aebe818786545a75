//! The arguments of a call are a0 to a7.

use crate::expecting::expect_eq;
use xk_base::Regs;

#[test]
fn arguments_are_a0_to_a7(rt: HostRuntime) {
    let mut regs = Regs::new();
    regs.set_arguments([1, 2, 3, 4, 5, 6, 7, 8]);
    let told = [regs.get(9), regs.get(10), regs.get(17), regs.get(18)];
    expect_eq(&rt, told, [0, 1, 8, 0]);
    expect_eq(&rt, regs.arguments(), [1, 2, 3, 4, 5, 6, 7, 8]);
}
