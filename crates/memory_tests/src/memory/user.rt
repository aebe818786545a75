//! A process's memory through the bound that the hart has it by, with its pages found anew and known.

use super::accesses::Does::{Fetch, Load, Store};
use super::accesses::{Try, known_attempts};
use super::calls::{Call, run};
use super::exchange;
use crate::expecting::expect_eq;
use xk_base::Stored::{Device, Done, Fault};
use xk_base::Vpn;
use xk_base::Width::{Byte, Half, Word};
use xk_ports::{MemStore, SwapStore};

/// The console's page is mapped at 0x6000_0000.
const CONSOLE: Call = Call::MakeConsole(None, true, Ok(Vpn(0x6_0000)));

/// Each width at the first and the last bytes of a page. Code is fetched and loaded, and not stored
/// to; the page behind it isn't there. The console's page shows 0.
const ACCESSES: [Try; 18] = [
    Try(0x7FFF_F000, Word, Store(0x89AB_CDEF, Done)),
    Try(0x7FFF_F000, Byte, Store(0x0123, Done)),
    Try(0x7FFF_F000, Word, Load(Some(0x89AB_CD23))),
    Try(0x7FFF_F000, Half, Load(Some(0xCD23))),
    Try(0x7FFF_FFFC, Word, Store(0x89AB_CDEF, Done)),
    Try(0x7FFF_FFFE, Half, Store(0x5678_9ABC, Done)),
    Try(0x7FFF_FFFC, Word, Load(Some(0x9ABC_CDEF))),
    Try(0x7FFF_FFFE, Half, Load(Some(0x9ABC))),
    Try(0x7FFF_FFFF, Byte, Load(Some(0x9A))),
    Try(0x1_0000, Word, Store(0, Fault)),
    Try(0x1_0000, Word, Fetch(Some(0x0010_0513))),
    Try(0x1_0023, Byte, Load(Some(0xEF))),
    Try(0x1_0024, Word, Load(Some(0))),
    Try(0x7FFF_F000, Word, Fetch(None)),
    Try(0x1_1000, Byte, Load(None)),
    Try(0x6000_0FFF, Byte, Store(65, Device(0xFFF))),
    Try(0x6000_0FFF, Byte, Load(Some(0))),
    Try(0x6000_0000, Word, Fetch(None)),
];

#[test]
fn user_reaches_its_pages(rt: HostRuntime) {
    run(&rt, rt.alloc(), &[CONSOLE, Call::Accesses(&ACCESSES)]);
}

#[test]
fn known_pages_are_reached(rt: HostRuntime) {
    run(&rt, rt.alloc(), &[CONSOLE, Call::KnownAccesses(&ACCESSES)]);
}

/// The first page is known to loads and stores when the two others come in and it goes out: the next
/// round finds it again, and not what stands in its frame by then.
const ROUNDS: [Try; 12] = [
    Try(0x1_0000, Byte, Load(Some(1))),
    Try(0x1_0000, Byte, Load(Some(1))),
    Try(0x1_0000, Byte, Store(11, Done)),
    Try(0x1_0000, Byte, Load(Some(11))),
    Try(0x2000_0000, Byte, Load(Some(2))),
    Try(0x7FFF_F000, Byte, Load(Some(3))),
    Try(0x1_0000, Byte, Load(Some(11))),
    Try(0x1_0000, Byte, Load(Some(11))),
    Try(0x1_0000, Byte, Store(21, Done)),
    Try(0x1_0000, Byte, Load(Some(21))),
    Try(0x2000_0000, Byte, Load(Some(2))),
    Try(0x7FFF_F000, Byte, Load(Some(3))),
];

#[test]
fn known_pages_are_forgotten(rt: HostRuntime) {
    let mut store = MemStore::new(Vec::new(rt.alloc()));
    store.prepare(rt.alloc(), 4, None).expect(&rt, "slots");
    match exchange::booted(rt.alloc(), store) {
        Ok(mut memory) => {
            expect_eq(&rt, known_attempts(&rt, &mut memory, &ROUNDS), Ok(()));
            let _ = memory.close();
        }
        Err(_) => panic!(&rt; "not booted"),
    }
}
