//! The first pages of a plan.

use super::accesses::Does::Load;
use super::accesses::Try;
use super::calls::Call::{Accesses, Shows};
use super::calls::{Call, Shown, run};
use super::{PID, WRITE};
use sv32_space::Walked;
use vm_memory::Here;
use xk_base::Width::Byte;
use xk_base::{Access, Pid, Place, Right, Vpn};

macro_rules! place {
    ($pid:expr, $vpn:literal) => {
        Place {
            pid: $pid,
            vpn: Vpn($vpn),
        }
    };
}

macro_rules! own {
    ($right:expr) => {
        Here::Own {
            right: $right,
            console: false,
            loan: None,
        }
    };
}

const CODE: Right = Right { w: false, x: true };

/// Bytes 0, 35, 36 and 4095 of the code and of the page of the stack.
const ENDS: [Try; 8] = [
    Try(0x1_0000, Byte, Load(Some(0x13))),
    Try(0x1_0023, Byte, Load(Some(0xEF))),
    Try(0x1_0024, Byte, Load(Some(0))),
    Try(0x1_0FFF, Byte, Load(Some(0))),
    Try(0x7FFF_F000, Byte, Load(Some(0))),
    Try(0x7FFF_F023, Byte, Load(Some(0))),
    Try(0x7FFF_F024, Byte, Load(Some(0))),
    Try(0x7FFF_FFFF, Byte, Load(Some(0))),
];

/// Pages stand in the frames behind the 21 of the tables, in the plan's order.
const PAGES: [Call; 9] = [
    Shows(Shown::At(place!(PID, 0x10), own!(CODE))),
    Shows(Shown::At(place!(PID, 0x7_FFFF), own!(WRITE))),
    Shows(Shown::At(place!(PID, 0x11), Here::Nothing)),
    Shows(Shown::At(place!(PID, 0x8_0000), Here::Nothing)),
    Shows(Shown::At(place!(Pid(3), 0x10), Here::Nothing)),
    Shows(Shown::Walk(0x1_0004, Access::Fetch, Walked::Reaches(0x4001_5004))),
    Shows(Shown::Walk(0x7FFF_FFFC, Access::Store, Walked::Reaches(0x4001_6FFC))),
    Shows(Shown::Walk(0x1_0004, Access::Store, Walked::PageFault)),
    Accesses(&ENDS),
];

#[test]
fn boot_places_the_plan(rt: HostRuntime) {
    run(&rt, rt.alloc(), &PAGES);
}
