//! A run of two pages of process 2, the first in a frame and the second out on the store: lent,
//! passed, ended and orphaned, and moved.

use crate::expecting::expect_eq;
use crate::small_space::{
    FIRST, FREE, MESSAGE, end, give, is_free, lend, orphan, pass, two_pages, words,
};
use phys_pages::Seat;
use xk_base::{Frame, LoanKind, Slot};

/// The words of two pages with R and W, in frame 22 and at slot 5.
const OWN: [u32; 2] = [0x1000_58D7, 0x0000_14F6];

// The words are written down by hand from the bits of each kind.
#[test]
fn lend_ends(rt: HostRuntime) {
    let mut s = two_pages(rt.alloc(), Seat::Slot(Slot(5))).expect(&rt, "two pages");
    expect_eq(&rt, words(&s, FIRST), OWN);
    let loan = lend(&mut s, LoanKind::Shared).expect(&rt, "a loan");
    expect_eq(&rt, words(&s, FIRST), [0x1000_5BD3, 0x0000_17F2]);
    expect_eq(&rt, words(&s, MESSAGE), [0x1000_5953, 0x0000_1572]);
    end(&mut s, loan);
    expect_eq(&rt, words(&s, FIRST), OWN);
    expect_eq(&rt, words(&s, MESSAGE), FREE);
}

#[test]
fn mutable_lend_is_passed_and_ends(rt: HostRuntime) {
    let mut s = two_pages(rt.alloc(), Seat::Slot(Slot(5))).expect(&rt, "two pages");
    let loan = lend(&mut s, LoanKind::Exclusive).expect(&rt, "a loan");
    expect_eq(&rt, words(&s, FIRST), [0x1000_5B06, 0x0000_1726]);
    expect_eq(&rt, words(&s, MESSAGE), [0x1000_59D7, 0x0000_15F6]);
    let passed = pass(&mut s, loan);
    expect_eq(&rt, words(&s, FIRST), [0x1000_5B06, 0x0000_1726]);
    expect_eq(&rt, words(&s, MESSAGE), FREE);
    expect_eq(&rt, words(&s, MESSAGE + 2), [0x1000_59D7, 0x0000_15F6]);
    end(&mut s, passed);
    expect_eq(&rt, words(&s, FIRST), OWN);
    expect_eq(&rt, words(&s, MESSAGE + 2), FREE);
}

#[test]
fn lend_is_orphaned_and_ends(rt: HostRuntime) {
    let mut s = two_pages(rt.alloc(), Seat::Slot(Slot(5))).expect(&rt, "two pages");
    let loan = lend(&mut s, LoanKind::Shared).expect(&rt, "a loan");
    let orphans = orphan(&mut s, loan);
    expect_eq(&rt, words(&s, FIRST), FREE);
    expect_eq(&rt, words(&s, MESSAGE), [0x1000_5953, 0x0000_1572]);
    expect_eq(&rt, is_free(&s, Seat::Frame(Frame(22))), false);
    expect_eq(&rt, is_free(&s, Seat::Slot(Slot(5))), false);
    end(&mut s, orphans);
    expect_eq(&rt, words(&s, MESSAGE), FREE);
    expect_eq(&rt, is_free(&s, Seat::Frame(Frame(22))), true);
    expect_eq(&rt, is_free(&s, Seat::Slot(Slot(5))), true);
}

#[test]
fn pages_are_moved(rt: HostRuntime) {
    let mut s = two_pages(rt.alloc(), Seat::Slot(Slot(5))).expect(&rt, "two pages");
    expect_eq(&rt, give(&mut s), true);
    expect_eq(&rt, words(&s, FIRST), FREE);
    expect_eq(&rt, words(&s, MESSAGE), OWN);
}
