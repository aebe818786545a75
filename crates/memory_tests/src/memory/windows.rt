//! Pages of a window are made, reduced and removed.

use super::calls::Call::{Clear, Make, MakeConsole, Reduce, Remove, Shows};
use super::calls::{Call, Shown, run};
use super::{PID, WRITE};
use sv32_space::Walked;
use vm_memory::Here;
use xk_base::Window::{Heap, Map};
use xk_base::XousError::{AccessDenied, BadAddress, MemoryInUse};
use xk_base::{Access, Place, Right, Vpn};

const READ: Right = Right { w: false, x: false };

const FIRST: Vpn = Vpn(0x2_0000);

const LAST: Vpn = Vpn(0x6_0FFF);

/// Two pages of the heap are made, reduced and removed, each once. The first stands in the first frame behind those of the
/// tables and two pages.
const HEAP: [Call; 11] = [
    Make(Heap, Some(FIRST), 2, Ok(FIRST)),
    Make(Heap, Some(FIRST), 2, Err(MemoryInUse)),
    Shows(Shown::Pages(4, 4074)),
    Shows(Shown::Walk(0x2000_0000, Access::Store, Walked::Reaches(0x4001_7000))),
    Reduce(0x2_0000, 2, READ, Ok(())),
    Reduce(0x2_0000, 2, WRITE, Err(AccessDenied)),
    Remove(0x2_0000, 2, Ok(())),
    Remove(0x2_0000, 2, Err(BadAddress)),
    Clear(0x2_0000, 2, Ok(())),
    Shows(Shown::FreeRun(Heap, 2, Some(FIRST))),
    Shows(Shown::Pages(2, 4074)),
];

#[test]
fn heap_pages_come_and_go(rt: HostRuntime) {
    run(&rt, rt.alloc(), &HEAP);
}

/// The last page of the map window, and the console at the first.
const MAP: [Call; 7] = [
    Make(Map, Some(LAST), 1, Ok(LAST)),
    Make(Map, Some(LAST), 2, Err(BadAddress)),
    Make(Map, Some(LAST), 1, Err(MemoryInUse)),
    MakeConsole(None, true, Ok(Vpn(0x6_0000))),
    MakeConsole(None, true, Err(MemoryInUse)),
    Shows(Shown::At(
        Place {
            pid: PID,
            vpn: Vpn(0x6_0000),
        },
        Here::Own {
            right: WRITE,
            console: true,
            loan: None,
        },
    )),
    Shows(Shown::Pages(3, 4074)),
];

#[test]
fn map_window_ends(rt: HostRuntime) {
    run(&rt, rt.alloc(), &MAP);
}

/// The console is found at the last page of the map window, and no more once it is removed.
const CONSOLE: [Call; 4] = [
    MakeConsole(Some(LAST), false, Ok(LAST)),
    MakeConsole(None, false, Err(MemoryInUse)),
    Remove(0x6_0FFF, 1, Ok(())),
    MakeConsole(None, false, Ok(Vpn(0x6_0000))),
];

#[test]
fn console_at_the_last_page_is_found(rt: HostRuntime) {
    run(&rt, rt.alloc(), &CONSOLE);
}
