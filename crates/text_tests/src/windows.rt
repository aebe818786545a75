//! Where windows begin and end.

use crate::expecting::expect_eq;
use xk_base::{Vpn, Window, window_of};

/// A page, and the window that it is in.
const PAGES: [(Vpn, Option<Window>); 6] = [
    (Vpn(0xF), None),
    (Vpn(0x10), Some(Window::Image)),
    (Vpn(0xFFF), Some(Window::Image)),
    (Vpn(0x1000), None),
    (Vpn(0x7_FFFF), Some(Window::Stack)),
    (Vpn(0x8_0000), None),
];

#[test]
fn ends(rt: HostRuntime) {
    for (page, window) in PAGES {
        expect_eq(&rt, (page, window_of(page)), (page, window));
    }
    let told = [Window::Map.first().0, Window::Heap.last().0];
    expect_eq(&rt, told, [0x6_0000, 0x2_0FFF]);
}
