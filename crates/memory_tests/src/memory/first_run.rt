//! The plan of the image of the first run.

use super::WRITE;
use crate::expecting::expect_eq;
use boot_plan::{PagePlan, cap, plan};
use kernel_args::read_args;
use std::test::Fail;
use xk_base::{Right, Vpn};

/// A process that maps the console, stores one byte there and loops. Its code is the last 36 bytes.
const FIRST_IMAGE: [u8; 88] = [
    0x58, 0x41, 0x72, 0x67, 0xca, 0x7f, 0x05, 0x00, 0x0d, 0x00, 0x00, 0x00, 0x01, 0x00, 0x00, 0x00,
    0x00, 0x00, 0x00, 0x40, 0x00, 0x00, 0x00, 0x01, 0x73, 0x72, 0x61, 0x6d, 0x49, 0x6e, 0x69, 0x45,
    0xd5, 0xfe, 0x04, 0x00, 0x34, 0x00, 0x00, 0x00, 0x00, 0x00, 0x01, 0x00, 0x00, 0x00, 0x01, 0x00,
    0x24, 0x00, 0x00, 0x04, 0x13, 0x05, 0x20, 0x00, 0xb7, 0x05, 0x00, 0xf0, 0x13, 0x06, 0x00, 0x00,
    0xb7, 0x16, 0x00, 0x00, 0x13, 0x07, 0x60, 0x00, 0x73, 0x00, 0x00, 0x00, 0x93, 0x07, 0x80, 0x06,
    0x23, 0x80, 0xf5, 0x00, 0x6f, 0x00, 0x00, 0x00,
];

/// A page of zeros that may be written.
macro_rules! zeros {
    ($vpn:literal) => {
        PagePlan {
            vpn: Vpn($vpn),
            right: WRITE,
            from: 0,
            len: 0,
        }
    };
}

/// Its pages, in the order of its plan: code, eight pages of the stack, and the interrupt page.
const PLANNED: [PagePlan; 10] = [
    PagePlan {
        vpn: Vpn(0x10),
        right: Right { w: false, x: true },
        from: 52,
        len: 36,
    },
    zeros!(0x7_FFF8),
    zeros!(0x7_FFF9),
    zeros!(0x7_FFFA),
    zeros!(0x7_FFFB),
    zeros!(0x7_FFFC),
    zeros!(0x7_FFFD),
    zeros!(0x7_FFFE),
    zeros!(0x7_FFFF),
    zeros!(0x7_F000),
];

#[test]
fn first_run_has_ten_pages(rt: HostRuntime) -> Result<(), Fail> {
    let args = read_args(rt.alloc(), &FIRST_IMAGE)?;
    let plan = plan(rt.alloc(), &args, &FIRST_IMAGE, None)?;
    let told = [plan.ram_start, plan.frames, plan.slots, cap(&plan)];
    expect_eq(&rt, told, [0x4000_0000, 4096, 0, 4074]);
    expect_eq(&rt, plan.procs.as_slice().len(), 1);
    for process in plan.procs.as_slice() {
        expect_eq(&rt, (process.entry, process.sections), (0x1_0000, 1));
        expect_eq(&rt, process.pages.as_slice(), PLANNED.as_slice());
    }
    Ok(())
}
