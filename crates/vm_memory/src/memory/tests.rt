//! The memory of a machine, taken apart.

ghost use Rattle.std.specs.Prelude.{◌≤◌, length};

use crate::memory::{BootFault, Memory};
use boot_plan::plan;
use kernel_args::read_args;
use std::alloc::Global;
use xk_base::Frame;
use xk_ports::{SureStore, SwapStore};

/// A process that maps the console, stores one byte there and loops. Its code is the last 36 bytes.
const FIRST_IMAGE: [u8; 88] = [
    0x58, 0x41, 0x72, 0x67, 0xca, 0x7f, 0x05, 0x00, 0x0d, 0x00, 0x00, 0x00, 0x01, 0x00, 0x00, 0x00,
    0x00, 0x00, 0x00, 0x40, 0x00, 0x00, 0x00, 0x01, 0x73, 0x72, 0x61, 0x6d, 0x49, 0x6e, 0x69, 0x45,
    0xd5, 0xfe, 0x04, 0x00, 0x34, 0x00, 0x00, 0x00, 0x00, 0x00, 0x01, 0x00, 0x00, 0x00, 0x01, 0x00,
    0x24, 0x00, 0x00, 0x04, 0x13, 0x05, 0x20, 0x00, 0xb7, 0x05, 0x00, 0xf0, 0x13, 0x06, 0x00, 0x00,
    0xb7, 0x16, 0x00, 0x00, 0x13, 0x07, 0x60, 0x00, 0x73, 0x00, 0x00, 0x00, 0x93, 0x07, 0x80, 0x06,
    0x23, 0x80, 0xf5, 0x00, 0x6f, 0x00, 0x00, 0x00,
];

// The memory of an image.
fn image_memory<W: SwapStore>(alloc: Global, image: &[u8], store: W) -> Result<Memory<W>, W>
    requires few { length image.now ≤ 67108864 }
{
    let Ok(args) = read_args(alloc, image) else {
        return Err(store);
    };
    let Ok(plan) = plan(alloc, &args, image, Some(0)) else {
        return Err(store);
    };
    match Memory::boot(alloc, &plan, image, store) {
        Ok(memory) => Ok(memory),
        Err(BootFault { why: _, store }) => Err(store),
    }
}

// A field more, as a copy of the rights of pages, and this pattern doesn't compile.
#[test]
fn memory_parts(rt: HostRuntime) {
    match image_memory(rt.alloc(), &FIRST_IMAGE, SureStore::new()) {
        Ok(memory) => {
            let Memory {
                ram,
                owners,
                store,
                failed,
                procs,
                slots,
                pages,
                hand,
            } = &memory;
            assert_eq!(rt;
                (ram.frames(), owners.free_frame()),
                (4096, Some(Frame(31)))
            );
            assert!(rt; store.preparations().is_empty());
            assert!(rt; !*failed);
            assert_eq!(rt; (*procs, *slots, *pages, *hand), (1, 0, 10, 0));
            let Memory {
                ram: _,
                owners: _,
                store: _,
                failed: _,
                procs: _,
                slots: _,
                pages: _,
                hand: _,
            } = memory;
        }
        Err(_) => assert!(rt; false),
    }
}
