//! How entries and owners stand for a ledger, over a few of each.

use crate::expecting::expect_eq;
use phys_pages::{LoanInfo, PageInfo, Seat};
use sv32_space::small::{LedgerPlace, PlacedEntry, SeatInfo, ledger_at};
use sv32_space::{Entry, Side};
use xk_base::{Frame, LoanKind, Number, Pid, Place, Right, Slot, Vpn};

macro_rules! place {
    ($pid:literal, $vpn:literal) => {
        Place {
            pid: Pid($pid),
            vpn: Vpn($vpn),
        }
    };
}

macro_rules! entry {
    ($place:expr, $entry:expr) => {
        PlacedEntry {
            place: $place,
            entry: $entry,
        }
    };
    ($place:expr, $side:expr, $seat:expr) => {
        entry!(
            $place,
            Entry::At {
                side: $side,
                seat: $seat,
            }
        )
    };
}

macro_rules! said {
    ($seat:expr, $home:expr, $loan:expr) => {
        SeatInfo {
            seat: $seat,
            info: PageInfo {
                home: $home,
                loan: $loan,
            },
        }
    };
}

/// A loan to pid 3.
macro_rules! loan {
    ($vpn:literal, $kind:expr, $number:literal) => {
        Some(LoanInfo {
            holder: place!(3, $vpn),
            kind: $kind,
            number: Number($number),
        })
    };
}

macro_rules! home {
    ($right:expr, $seat:expr, $loan:expr) => {
        LedgerPlace::Home {
            right: $right,
            seat: $seat,
            loan: $loan,
        }
    };
}

const RIGHT: Right = Right { w: true, x: false };

const CODE: Right = Right { w: false, x: true };

const OWN: Seat = Seat::Frame(Frame(42));

const LENT: Seat = Seat::Frame(Frame(43));

const OUT: Seat = Seat::Slot(Slot(0));

const LEFT: Seat = Seat::Slot(Slot(43));

const SHARED: Option<LoanInfo> = loan!(0x4_0000, LoanKind::Shared, 7);

const EXCLUSIVE: Option<LoanInfo> = loan!(0x4_0001, LoanKind::Exclusive, 8);

const ORPHANED: Option<LoanInfo> = loan!(0x4_0002, LoanKind::Exclusive, 9);

/// Pid 2 has a page, one on shared loan to pid 3, one on exclusive loan that is out, and the
/// console; pid 3 holds an orphan besides.
const ENTRIES: [PlacedEntry; 8] = [
    entry!(place!(2, 0x10), Side::Own(CODE), OWN),
    entry!(place!(2, 0x2_0000), Side::LentOut(RIGHT), LENT),
    entry!(place!(2, 0x2_0001), Side::MutOut { x: true }, OUT),
    entry!(place!(2, 0x6_0000), Entry::OnConsole { w: true }),
    entry!(place!(3, 0x4_0000), Side::LentIn, LENT),
    entry!(place!(3, 0x4_0001), Side::MutIn, OUT),
    entry!(place!(3, 0x4_0002), Side::MutIn, LEFT),
    entry!(place!(3, 0x4_0003), Entry::Free),
];

const INFOS: [SeatInfo; 4] = [
    said!(OWN, Some(place!(2, 0x10)), None),
    said!(LENT, Some(place!(2, 0x2_0000)), SHARED),
    said!(OUT, Some(place!(2, 0x2_0001)), EXCLUSIVE),
    said!(LEFT, None, ORPHANED),
];

/// Places, and what the ledger has there.
const PLACES: [(Place, LedgerPlace); 9] = [
    (place!(2, 0x10), home!(CODE, Some(OWN), None)),
    (place!(2, 0x2_0000), home!(RIGHT, Some(LENT), SHARED)),
    (
        place!(2, 0x2_0001),
        home!(Right { w: true, x: true }, Some(OUT), EXCLUSIVE),
    ),
    (place!(2, 0x6_0000), home!(RIGHT, None, None)),
    (place!(3, 0x4_0000), LedgerPlace::Nothing),
    (place!(3, 0x4_0001), LedgerPlace::Nothing),
    (
        place!(3, 0x4_0002),
        LedgerPlace::Orphan {
            kind: LoanKind::Exclusive,
            seat: LEFT,
            number: Number(9),
        },
    ),
    (place!(3, 0x4_0003), LedgerPlace::Nothing),
    (place!(4, 0x10), LedgerPlace::Nothing),
];

#[test]
fn each_side(rt: HostRuntime) {
    for (at, answer) in PLACES {
        let told = ledger_at(&ENTRIES, &INFOS, at);
        expect_eq(&rt, (at, told), (at, answer));
    }
}
