//! RAM of 64 MiB, words at the ends of pages, and a table that is almost full.

ghost use Rattle.std.specs.Prelude.{◌≡◌, ◌<◌};
ghost use Rattle.phys_pages.specs.Ram.{area};

use crate::expecting::expect_eq;
use phys_pages::{LoanInfo, Owners, PageInfo, Ram, Seat};
use std::process::Abort;
use xk_base::{Frame, LoanKind, Number, Pid, Place, Slot, Vpn};

const START: u32 = 0x4000_0000;

// Writes both ends of a frame that holds zeros.
#[tactic(auto, using(phys_pages::proofs::PageLemmas::page_writes))]
fn write_ends(rt: &impl Abort, ram: &mut Ram, f: Frame, first: u8, last: u8)
    requires { f.0 < (area ram.old).frames }
    ensures { area ram.new ≡ area ram.old }
{
    expect_eq(rt, ram.page(f)[0], 0);
    expect_eq(rt, ram.page(f)[4095], 0);
    let page = ram.page_mut(f);
    page[0] = first;
    page[4095] = last;
}

fn ends(ram: &Ram, f: Frame) -> (u8, u8)
    requires { f.0 < (area ram.now).frames }
{
    let page = ram.page(f);
    (page[0], page[4095])
}

#[test]
fn pages_of_64_mib(rt: HostRuntime) {
    let mut ram = Ram::new(rt.alloc(), START, 16_384).expect(&rt, "memory");
    expect_eq(&rt, ram.frames(), 16_384);
    write_ends(&rt, &mut ram, Frame(0), 1, 2);
    write_ends(&rt, &mut ram, Frame(8191), 3, 4);
    write_ends(&rt, &mut ram, Frame(16_383), 5, 6);
    expect_eq(&rt, ends(&ram, Frame(0)), (1, 2));
    expect_eq(&rt, ends(&ram, Frame(1)), (0, 0));
    expect_eq(&rt, ends(&ram, Frame(8191)), (3, 4));
    expect_eq(&rt, ends(&ram, Frame(16_383)), (5, 6));
    expect_eq(&rt, ram.ppn_of(Frame(16_383)), 0x4_3FFF);
    expect_eq(&rt, ram.frame_of(0x3_FFFF), None);
    expect_eq(&rt, ram.frame_of(0x4_0000), Some(Frame(0)));
    expect_eq(&rt, ram.frame_of(0x4_3FFF), Some(Frame(16_383)));
    expect_eq(&rt, ram.frame_of(0x4_4000), None);
}

#[test]
fn words_at_page_ends(rt: HostRuntime) {
    let mut ram = Ram::new(rt.alloc(), START, 2).expect(&rt, "memory");
    ram.set_word(START + 4092, 0x0403_0201);
    ram.set_word(START + 4096, 0x0807_0605);
    expect_eq(&rt, &ram.page(Frame(0))[4092..], &[1, 2, 3, 4]);
    expect_eq(&rt, &ram.page(Frame(1))[..5], &[5, 6, 7, 8, 0]);
    expect_eq(&rt, ram.word(START + 4088), 0);
    expect_eq(&rt, ram.word(START + 4092), 0x0403_0201);
    expect_eq(&rt, ram.word(START + 4096), 0x0807_0605);
    expect_eq(&rt, ram.word(START + 8188), 0);
}

const HOME: Place = Place {
    pid: Pid(2),
    vpn: Vpn(0x1_0000),
};

#[test]
fn full_but_for_the_last_frame(rt: HostRuntime) {
    let holder = Place {
        pid: Pid(3),
        vpn: Vpn(0x4_0000),
    };
    let lent = PageInfo {
        home: Some(HOME),
        loan: Some(LoanInfo {
            holder,
            kind: LoanKind::Shared,
            number: Number(7),
        }),
    };
    let mut owners = Owners::new(rt.alloc(), Frame(21), 16_363, 2).expect(&rt, "memory");
    expect_eq(&rt, owners.free_frame(), Some(Frame(21)));
    for n in 21..16_383 {
        owners.set(Seat::Frame(Frame(n)), Some(lent));
    }
    let last = Seat::Frame(Frame(16_383));
    expect_eq(&rt, owners.free_frame(), Some(Frame(16_383)));
    expect_eq(&rt, owners.info(last).copied(), None);
    owners.set(last, Some(lent));
    expect_eq(&rt, owners.free_frame(), None);
    expect_eq(&rt, owners.info(last).copied(), Some(lent));
    expect_eq(&rt, owners.free_slot(), Some(Slot(0)));
    owners.set(Seat::Slot(Slot(0)), Some(lent));
    expect_eq(&rt, owners.free_slot(), Some(Slot(1)));
    owners.set(Seat::Frame(Frame(21)), None);
    expect_eq(&rt, owners.free_frame(), Some(Frame(21)));
}
