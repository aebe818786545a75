//! Frames and seats, taken apart.

use crate::{Owners, Ram, owners, ram};
use xk_base::Frame;

// With a field more, a pattern of `parts` doesn't compile.
#[test]
fn memory_parts(rt: HostRuntime) {
    match (
        Ram::new(rt.alloc(), 0x4000_0000, 22),
        Owners::new(rt.alloc(), Frame(21), 1, 2),
    ) {
        (Ok(ram), Ok(owners)) => {
            assert_eq!(rt; ram::parts(&ram), (0x4000_0000, 22 * 4096));
            assert_eq!(rt; owners::parts(&owners), (Frame(21), 1, 2));
        }
        _ => assert!(rt; false),
    }
}
