//! Pages of process 2 go out to slot 5 and come back to another frame, by a store whose calls fail
//! at times: a page of its own, and pages on loan.

use crate::expecting::expect_eq;
use crate::small_space::{
    FIRST, FREE, MESSAGE, comes_back, end, goes_out, has_sevens, is_free, lend, orphan, two_pages,
    words,
};
use phys_pages::Seat;
use xk_base::{Frame, LoanKind, Slot};
use xk_ports::{MemStore, SwapStore};

// The words are written down by hand from the bits of each kind. The second and the fourth call of
// the store fail.
#[test]
fn page_goes_out_and_comes_back(rt: HostRuntime) {
    let fails = [2, 4].to_vec(rt.alloc()).expect(&rt, "memory");
    let mut store = MemStore::new(fails);
    expect_eq(&rt, store.prepare(rt.alloc(), 16, None).is_ok(), true);
    let mut s = two_pages(rt.alloc(), Seat::Frame(Frame(23))).expect(&rt, "two pages");
    expect_eq(&rt, goes_out(&mut s, &mut store), false);
    expect_eq(&rt, words(&s, FIRST), [0x1000_58D7, 0x1000_5CD7]);
    expect_eq(&rt, is_free(&s, Seat::Slot(Slot(5))), true);
    expect_eq(&rt, goes_out(&mut s, &mut store), true);
    expect_eq(&rt, words(&s, FIRST), [0x0000_14F6, 0x1000_5CD7]);
    expect_eq(&rt, is_free(&s, Seat::Frame(Frame(22))), true);
    expect_eq(&rt, comes_back(&mut s, &mut store), false);
    expect_eq(&rt, words(&s, FIRST), [0x0000_14F6, 0x1000_5CD7]);
    expect_eq(&rt, is_free(&s, Seat::Frame(Frame(30))), true);
    expect_eq(&rt, comes_back(&mut s, &mut store), true);
    expect_eq(&rt, words(&s, FIRST), [0x1000_78D7, 0x1000_5CD7]);
    expect_eq(&rt, is_free(&s, Seat::Slot(Slot(5))), true);
    expect_eq(&rt, has_sevens(&s), true);
}

#[test]
fn lent_page_goes_out_with_both_entries(rt: HostRuntime) {
    let mut store = MemStore::new(Vec::new(rt.alloc()));
    expect_eq(&rt, store.prepare(rt.alloc(), 16, None).is_ok(), true);
    let mut s = two_pages(rt.alloc(), Seat::Frame(Frame(23))).expect(&rt, "two pages");
    let loan = lend(&mut s, LoanKind::Shared).expect(&rt, "a loan");
    expect_eq(&rt, goes_out(&mut s, &mut store), true);
    expect_eq(&rt, words(&s, FIRST), [0x0000_17F2, 0x1000_5FD3]);
    expect_eq(&rt, words(&s, MESSAGE), [0x0000_1572, 0x1000_5D53]);
    let orphans = orphan(&mut s, loan);
    expect_eq(&rt, words(&s, FIRST), FREE);
    expect_eq(&rt, words(&s, MESSAGE), [0x0000_1572, 0x1000_5D53]);
    expect_eq(&rt, comes_back(&mut s, &mut store), true);
    expect_eq(&rt, words(&s, FIRST), FREE);
    expect_eq(&rt, words(&s, MESSAGE), [0x1000_7953, 0x1000_5D53]);
    end(&mut s, orphans);
}

#[test]
fn mutably_lent_page_goes_out_with_both_entries(rt: HostRuntime) {
    let mut store = MemStore::new(Vec::new(rt.alloc()));
    expect_eq(&rt, store.prepare(rt.alloc(), 16, None).is_ok(), true);
    let mut s = two_pages(rt.alloc(), Seat::Frame(Frame(23))).expect(&rt, "two pages");
    let loan = lend(&mut s, LoanKind::Exclusive).expect(&rt, "a loan");
    expect_eq(&rt, goes_out(&mut s, &mut store), true);
    expect_eq(&rt, words(&s, FIRST), [0x0000_1726, 0x1000_5F06]);
    expect_eq(&rt, words(&s, MESSAGE), [0x0000_15F6, 0x1000_5DD7]);
    expect_eq(&rt, comes_back(&mut s, &mut store), true);
    expect_eq(&rt, words(&s, FIRST), [0x1000_7B06, 0x1000_5F06]);
    expect_eq(&rt, words(&s, MESSAGE), [0x1000_79D7, 0x1000_5DD7]);
    end(&mut s, loan);
    expect_eq(&rt, words(&s, FIRST), [0x1000_78D7, 0x1000_5CD7]);
}
