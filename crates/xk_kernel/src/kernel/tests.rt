//! The kernel of the image of the first run, taken apart.

ghost use Rattle.std.specs.Prelude.{◌≤◌, length, IfOk};
ghost use Rattle.xk_kernel.specs.Sound.{IsSound};

use crate::kernel::Kernel;
use boot_plan::plan;
use kernel_args::read_args;
use std::alloc::Global;
use vm_memory::BootFault;
use xk_base::{Pid, ThreadId, Tid};
use xk_ports::{SureStore, SwapStore};

/// A process that maps the console, stores one byte there and loops. Its code is the last 36 bytes.
const FIRST_IMAGE: [u8; 88] = [
    0x58, 0x41, 0x72, 0x67, 0xca, 0x7f, 0x05, 0x00, 0x0d, 0x00, 0x00, 0x00, 0x01, 0x00, 0x00, 0x00,
    0x00, 0x00, 0x00, 0x40, 0x00, 0x00, 0x00, 0x01, 0x73, 0x72, 0x61, 0x6d, 0x49, 0x6e, 0x69, 0x45,
    0xd5, 0xfe, 0x04, 0x00, 0x34, 0x00, 0x00, 0x00, 0x00, 0x00, 0x01, 0x00, 0x00, 0x00, 0x01, 0x00,
    0x24, 0x00, 0x00, 0x04, 0x13, 0x05, 0x20, 0x00, 0xb7, 0x05, 0x00, 0xf0, 0x13, 0x06, 0x00, 0x00,
    0xb7, 0x16, 0x00, 0x00, 0x13, 0x07, 0x60, 0x00, 0x73, 0x00, 0x00, 0x00, 0x93, 0x07, 0x80, 0x06,
    0x23, 0x80, 0xf5, 0x00, 0x6f, 0x00, 0x00, 0x00,
];

// The kernel of an image.
fn image_kernel<W: SwapStore>(alloc: Global, image: &[u8], store: W) -> Result<Kernel<W>, W>
    requires few { length image.now ≤ 67108864 }
    ensures sound { IfOk result (λ k. IsSound W.SwapStore k) }
{
    let Ok(args) = read_args(alloc, image) else {
        return Err(store);
    };
    let Ok(plan) = plan(alloc, &args, image, Some(0)) else {
        return Err(store);
    };
    match Kernel::boot(alloc, &plan, image, store) {
        Ok(kernel) => Ok(kernel),
        Err(BootFault { why: _, store }) => Err(store),
    }
}

// A field more, as a copy of the machine's memory, and this pattern doesn't compile.
#[test]
fn memory_parts(rt: HostRuntime) {
    match image_kernel(rt.alloc(), &FIRST_IMAGE, SureStore::new()) {
        Ok(kernel) => {
            let Kernel {
                mem,
                threads,
                procs,
                servers: _,
                queues: _,
                claims,
                log,
                cursor,
                next,
                steps,
                timer,
                reserved,
            } = &kernel;
            let first = ThreadId {
                pid: Pid(2),
                tid: Tid(2),
            };
            assert_eq!(rt; (mem.pages(), mem.cap()), (10, 4074));
            assert!(rt; threads.get(first).is_some());
            assert!(rt; procs.alive(first.pid));
            assert!(rt; claims.get(0).is_none());
            assert!(rt; log.as_slice().is_empty());
            assert_eq!(rt; (*cursor, *next, *steps), (first, 1, 0));
            assert!(rt; timer.compare().is_none());
            assert!(rt; reserved.is_none());
            let _ = kernel.close();
        }
        Err(_) => assert!(rt; false),
    }
}
