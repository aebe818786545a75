//! The free runs and the sendable pages of a space.

ghost use Rattle.phys_pages.specs.Ram.{area};
ghost use Rattle.std.specs.Prelude.{◌<◌, ◌≡◌, ◌≤◌};
ghost use Rattle.sv32_space.specs.SpelledEntries.{IsEntry};
ghost use Rattle.sv32_space.specs.Spaces.{IsMade};

use crate::expecting::expect_eq;
use loan_flags::{free_run, may_send};
use phys_pages::{Ram, Seat};
use sv32_space::{Entry, Side, new_space, set_entry};
use xk_base::{Frame, MemKind, Pid, Place, Right, Slot, Vpn, Window, XousError};

const START: u32 = 0x4000_0000;

const RW: Right = Right { w: true, x: false };

// An entry at a place of the Message window of process 2.
fn put(ram: &mut Ram, vpn: u32, entry: Entry)
    requires made { IsMade ram.old 2 }
    requires window { 262144 ≤ vpn }
    requires last { vpn < 266240 }
    requires entry { IsEntry (area ram.old) entry }
    ensures made { IsMade ram.new 2 }
    ensures area { area ram.new ≡ area ram.old }
{
    set_entry(
        ram,
        Place {
            pid: Pid(2),
            vpn: Vpn(vpn),
        },
        entry,
    );
}

fn run_of(ram: &Ram, n: u32) -> Option<Vpn>
    requires made { IsMade ram.now 2 }
    requires some { 1 ≤ n }
{
    free_run(ram, Pid(2), Window::Message, n)
}

// The least run, past a used place, and up to the last place of the window.
#[test]
fn free_runs(rt: HostRuntime) {
    let near = Entry::At {
        side: Side::Own(RW),
        seat: Seat::Frame(Frame(22)),
    };
    let mut ram = Ram::new(rt.alloc(), START, 64).expect(&rt, "memory");
    new_space(&mut ram, Frame(0));
    expect_eq(&rt, run_of(&ram, 2), Some(Vpn(0x4_0000)));
    expect_eq(&rt, run_of(&ram, 4096), Some(Vpn(0x4_0000)));
    expect_eq(&rt, run_of(&ram, 4097), None);
    put(&mut ram, 0x4_0001, near);
    expect_eq(&rt, run_of(&ram, 1), Some(Vpn(0x4_0000)));
    expect_eq(&rt, run_of(&ram, 2), Some(Vpn(0x4_0002)));
    expect_eq(&rt, run_of(&ram, 4094), Some(Vpn(0x4_0002)));
    expect_eq(&rt, run_of(&ram, 4095), None);
    put(&mut ram, 0x4_0FFD, near);
    expect_eq(&rt, run_of(&ram, 4091), Some(Vpn(0x4_0002)));
    expect_eq(&rt, run_of(&ram, 4092), None);
}

fn sent(ram: &Ram, n: u32, kind: MemKind) -> Result<(), XousError>
    requires made { IsMade ram.now 2 }
{
    let from = Place {
        pid: Pid(2),
        vpn: Vpn(0x4_0000),
    };
    may_send(ram, from, n, kind)
}

// A page in a frame and one that is out, without w; then one on loan, and no page.
#[test]
fn pages_to_send(rt: HostRuntime) {
    let near = Entry::At {
        side: Side::Own(RW),
        seat: Seat::Frame(Frame(22)),
    };
    let out = Entry::At {
        side: Side::Own(Right { w: false, x: false }),
        seat: Seat::Slot(Slot(5)),
    };
    let lent = Entry::At {
        side: Side::LentOut(RW),
        seat: Seat::Frame(Frame(23)),
    };
    let mut ram = Ram::new(rt.alloc(), START, 64).expect(&rt, "memory");
    new_space(&mut ram, Frame(0));
    put(&mut ram, 0x4_0000, near);
    put(&mut ram, 0x4_0001, out);
    put(&mut ram, 0x4_0002, lent);
    expect_eq(&rt, sent(&ram, 1, MemKind::LendMut), Ok(()));
    expect_eq(&rt, sent(&ram, 2, MemKind::Lend), Ok(()));
    expect_eq(&rt, sent(&ram, 2, MemKind::Move), Ok(()));
    expect_eq(
        &rt,
        sent(&ram, 2, MemKind::LendMut),
        Err(XousError::ShareViolation),
    );
    expect_eq(
        &rt,
        sent(&ram, 3, MemKind::Move),
        Err(XousError::ShareViolation),
    );
    expect_eq(
        &rt,
        sent(&ram, 4, MemKind::Move),
        Err(XousError::BadAddress),
    );
}
