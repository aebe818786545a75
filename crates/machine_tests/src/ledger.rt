//! The rows of the table of accesses, over a small ledger.

use crate::expecting::expect_eq;
use ledger_model::small::{
    LoanEntry, OrphanEntry, PageEntry, Reached, find_least_run, reached_page,
};
use xk_base::{Access, LoanKind, Number, Pid, Place, Right, Vpn, Window};

macro_rules! place {
    ($pid:literal, $vpn:literal) => {
        Place {
            pid: Pid($pid),
            vpn: Vpn($vpn),
        }
    };
}

/// A page of 2, with its right to be stored to and fetched from.
macro_rules! page {
    ($vpn:literal, $w:literal, $x:literal, $loan:expr $(,)?) => {
        PageEntry {
            home: place!(2, $vpn),
            right: Right { w: $w, x: $x },
            console: false,
            loan: $loan,
        }
    };
}

/// A loan to 3.
macro_rules! loan {
    ($vpn:literal, $kind:expr, $number:literal) => {
        LoanEntry {
            holder: place!(3, $vpn),
            kind: $kind,
            number: Number($number),
        }
    };
}

macro_rules! orphan {
    ($vpn:literal, $kind:expr, $number:literal) => {
        OrphanEntry {
            holder: place!(3, $vpn),
            kind: $kind,
            number: Number($number),
        }
    };
}

/// Pages of 2, of which 3 holds two.
const PAGES: [PageEntry; 4] = [
    page!(0x10, false, true, None),
    page!(0x2_0000, true, false, None),
    page!(
        0x2_0001,
        true,
        true,
        Some(loan!(0x4_0000, LoanKind::Shared, 1)),
    ),
    page!(
        0x2_0002,
        true,
        true,
        Some(loan!(0x4_0001, LoanKind::Exclusive, 2)),
    ),
];

/// Orphans at 3.
const ORPHANS: [OrphanEntry; 2] = [
    orphan!(0x4_0002, LoanKind::Shared, 3),
    orphan!(0x4_0003, LoanKind::Exclusive, 4),
];

/// A place, what is named there, and whether it may be loaded, stored and fetched.
struct Row(Place, Reached, [bool; 3]);

/// The rows of the table of accesses: a place and the page's home, or an orphan's place.
macro_rules! row {
    ($pid:literal $vpn:literal => $of:literal $home:literal, $may:expr) => {
        Row(place!($pid, $vpn), Reached::Page(place!($of, $home)), $may)
    };
    (orphan $vpn:literal, $may:expr) => {
        Row(place!(3, $vpn), Reached::Orphan(place!(3, $vpn)), $may)
    };
}

const REACH: [Row; 10] = [
    row!(2 0x10 => 2 0x10, [true, false, true]),
    row!(2 0x2_0000 => 2 0x2_0000, [true, true, false]),
    row!(2 0x2_0001 => 2 0x2_0001, [true, false, true]),
    row!(2 0x2_0002 => 2 0x2_0002, [false, false, false]),
    row!(3 0x4_0000 => 2 0x2_0001, [true, false, false]),
    row!(3 0x4_0001 => 2 0x2_0002, [true, true, false]),
    row!(orphan 0x4_0002, [true, false, false]),
    row!(orphan 0x4_0003, [true, true, false]),
    row!(2 0x6_0000 => 2 0x6_0000, [true, true, false]),
    row!(3 0x2_0000 => 3 0x2_0000, [false, false, false]),
];

const ACCESSES: [Access; 3] = [Access::Load, Access::Store, Access::Fetch];

/// Each row of the table of accesses, as load, store and fetch. The last page is the console.
#[test]
fn rows_of_reach(rt: HostRuntime) {
    let [first, second, third, fourth] = PAGES;
    let console = PageEntry::console(place!(2, 0x6_0000), true);
    let pages = [first, second, third, fourth, console];
    for Row(at, named, may) in &REACH {
        for (access, is_reached) in ACCESSES.iter().zip(may) {
            let wanted = if *is_reached { Some(*named) } else { None };
            let told = reached_page(&pages, &ORPHANS, *at, *access);
            expect_eq(&rt, (*at, told), (*at, wanted));
        }
    }
    let least = find_least_run(&pages, &ORPHANS, Pid(3), Window::Message, 1);
    expect_eq(&rt, least, Some(Vpn(0x4_0004)));
}

/// Pages of the heap of 2, with a hole of one page between them.
const HEAP: [PageEntry; 2] = [
    page!(0x2_0000, true, false, None),
    page!(0x2_0002, true, false, None),
];

/// A number of pages, and the first of the least run of as many.
const LEAST_RUNS: [(u32, Option<Vpn>); 4] = [
    (1, Some(Vpn(0x2_0001))),
    (2, Some(Vpn(0x2_0003))),
    (4093, Some(Vpn(0x2_0003))),
    (4094, None),
];

/// A window with a hole of one page between two pages: behind them all is free, to the window's end.
#[test]
fn least_run_at_the_end(rt: HostRuntime) {
    for (n, wanted) in LEAST_RUNS {
        let least = find_least_run(&HEAP, &[], Pid(2), Window::Heap, n);
        expect_eq(&rt, (n, least), (n, wanted));
    }
}
