//! The image of the first run: what of it is quiet, and its state, saved and resumed.

ghost use Rattle.std.specs.Prelude.{◌≤◌, length, IfOk, IfSome};
ghost use Rattle.xk_kernel.specs.Sound.{IsSound, IsUsable};

use crate::expecting::expect_eq;
use boot_plan::plan;
use kernel_args::read_args;
use std::alloc::Global;
use suspend_image::{Sheet, read_state};
use vm_memory::BootFault;
use xk_kernel::{Kernel, SwapFault};
use xk_ports::{SureStore, SwapStore};

/// A process that maps the console, stores one byte there and loops. Its code is the last 36 bytes.
const FIRST_IMAGE: [u8; 88] = [
    0x58, 0x41, 0x72, 0x67, 0xca, 0x7f, 0x05, 0x00, 0x0d, 0x00, 0x00, 0x00, 0x01, 0x00, 0x00, 0x00,
    0x00, 0x00, 0x00, 0x40, 0x00, 0x00, 0x00, 0x01, 0x73, 0x72, 0x61, 0x6d, 0x49, 0x6e, 0x69, 0x45,
    0xd5, 0xfe, 0x04, 0x00, 0x34, 0x00, 0x00, 0x00, 0x00, 0x00, 0x01, 0x00, 0x00, 0x00, 0x01, 0x00,
    0x24, 0x00, 0x00, 0x04, 0x13, 0x05, 0x20, 0x00, 0xb7, 0x05, 0x00, 0xf0, 0x13, 0x06, 0x00, 0x00,
    0xb7, 0x16, 0x00, 0x00, 0x13, 0x07, 0x60, 0x00, 0x73, 0x00, 0x00, 0x00, 0x93, 0x07, 0x80, 0x06,
    0x23, 0x80, 0xf5, 0x00, 0x6f, 0x00, 0x00, 0x00,
];

// The kernel of an image.
fn image_kernel<W: SwapStore>(alloc: Global, image: &[u8], store: W) -> Result<Kernel<W>, W>
    requires few { length image.now ≤ 67108864 }
    ensures sound { IfOk result (λ k. IsSound W.SwapStore k) }
    ensures usable { IfOk result (λ k. IsUsable k) }
{
    let Ok(args) = read_args(alloc, image) else {
        return Err(store);
    };
    let Ok(plan) = plan(alloc, &args, image, Some(0)) else {
        return Err(store);
    };
    match Kernel::boot(alloc, &plan, image, store) {
        Ok(kernel) => Ok(kernel),
        Err(BootFault { why: _, store }) => Err(store),
    }
}

// How many of the next 7 steps are quiet, and then one step.
fn run_and_step<W: SwapStore>(kernel: &mut Kernel<W>) -> Option<u32>
    requires sound { IsSound W.SwapStore kernel.old }
    requires usable { IsUsable kernel.old }
    ensures sound { IsSound W.SwapStore kernel.new }
    ensures usable { IfSome result (λ _. IsUsable kernel.new) }
{
    if kernel.steps() > 100 {
        return None;
    }
    let Ok(done) = kernel.run_quiet(7) else {
        return None;
    };
    if kernel.steps() > 200 {
        return None;
    }
    match kernel.step() {
        Ok(_) => Some(done),
        Err(_) => None,
    }
}

// The same three times.
fn three_runs<W: SwapStore>(kernel: &mut Kernel<W>) -> Option<[u32; 3]>
    requires sound { IsSound W.SwapStore kernel.old }
    requires usable { IsUsable kernel.old }
    ensures sound { IsSound W.SwapStore kernel.new }
{
    let first = run_and_step(kernel)?;
    let second = run_and_step(kernel)?;
    let third = run_and_step(kernel)?;
    Some([first, second, third])
}

// Five instructions stand before its call, one before its store to the console, and then it loops.
#[test]
fn quiet_runs(rt: HostRuntime) {
    match image_kernel(rt.alloc(), &FIRST_IMAGE, SureStore::new()) {
        Ok(mut kernel) => {
            let runs = three_runs(&mut kernel);
            expect_eq(&rt, (runs, kernel.steps()), (Some([5, 1, 7]), 16));
            let _ = kernel.close();
        }
        Err(_) => panic!(&rt; "not booted"),
    }
}

// The bytes of the kernel's state, in a sheet with room for that of any kernel.
fn saved<W: SwapStore>(alloc: Global, kernel: &mut Kernel<W>) -> Option<Sheet>
    requires sound { IsSound W.SwapStore kernel.old }
    requires usable { IsUsable kernel.old }
    ensures sound { IsSound W.SwapStore kernel.new }
    ensures usable { IfSome result (λ _. IsUsable kernel.new) }
{
    let Ok(mut sheet) = Sheet::new(alloc, 64, 32_768) else {
        return None;
    };
    match kernel.save(&mut sheet) {
        Ok(()) => Some(sheet),
        Err(SwapFault) => None,
    }
}

// Whether the state has so many bytes, and the same ones where it is saved again.
fn is_saved_alike<W: SwapStore>(alloc: Global, kernel: &mut Kernel<W>, size: usize) -> bool
    requires sound { IsSound W.SwapStore kernel.old }
    requires usable { IsUsable kernel.old }
    ensures sound { IsSound W.SwapStore kernel.new }
{
    let Some(first) = saved(alloc, kernel) else {
        return false;
    };
    let Some(second) = saved(alloc, kernel) else {
        return false;
    };
    first.as_slice().len() == size && first.as_slice() == second.as_slice()
}

// A header, 13 words of the machine, 3 of the process, two threads and ten pages, with the number of rows of five parts.
#[test]
fn saved_twice(rt: HostRuntime) {
    match image_kernel(rt.alloc(), &FIRST_IMAGE, SureStore::new()) {
        Ok(mut kernel) => {
            let alike = is_saved_alike(rt.alloc(), &mut kernel, 41_628);
            expect_eq(&rt, alike, true);
            let _ = kernel.close();
        }
        Err(_) => panic!(&rt; "not booted"),
    }
}

// The kernel of the state that these bytes spell: with no slots, or with one frame for pages and all others in slots.
fn resumed_kernel<W: SwapStore>(
    alloc: Global,
    file: &[u8],
    one_frame: bool,
    store: W,
) -> Result<Kernel<W>, W>
    ensures sound { IfOk result (λ k. IsSound W.SwapStore k) }
    ensures usable { IfOk result (λ k. IsUsable k) }
{
    let mut store = store;
    let Ok(state) = read_state(alloc, file) else {
        return Err(store);
    };
    if state.cap == 0 || state.cap > 8192 {
        return Err(store);
    }
    let slots = if one_frame { state.cap - 1 } else { 0 };
    match store.prepare(alloc, slots, None) {
        Ok(()) => {}
        Err(_) => return Err(store),
    }
    match Kernel::resume(alloc, &state, file, slots, store) {
        Ok(kernel) => Ok(kernel),
        Err(BootFault { why: _, store }) => Err(store),
    }
}

// Whether the state that is resumed from these bytes is saved with the same ones. The store is handed back.
fn comes_back<W: SwapStore>(alloc: Global, file: &[u8], one_frame: bool, store: W) -> (bool, W) {
    match resumed_kernel(alloc, file, one_frame, store) {
        Ok(mut again) => {
            let alike = match saved(alloc, &mut again) {
                Some(sheet) => sheet.as_slice() == file,
                None => false,
            };
            (alike, again.close())
        }
        Err(store) => (false, store),
    }
}

// The bytes of the state after five instructions and a call that maps the console.
fn stepped_bytes<W: SwapStore>(alloc: Global, kernel: &mut Kernel<W>) -> Option<Sheet>
    requires sound { IsSound W.SwapStore kernel.old }
    requires usable { IsUsable kernel.old }
    ensures sound { IsSound W.SwapStore kernel.new }
{
    run_and_step(kernel)?;
    saved(alloc, kernel)
}

// The state is resumed with all pages in frames, and with one frame for pages.
#[test]
fn resumed_and_saved(rt: HostRuntime) {
    match image_kernel(rt.alloc(), &FIRST_IMAGE, SureStore::new()) {
        Ok(mut kernel) => {
            let bytes = stepped_bytes(rt.alloc(), &mut kernel);
            let _ = kernel.close();
            let sheet = bytes.expect(&rt, "a state");
            let (near, _) = comes_back(rt.alloc(), sheet.as_slice(), false, SureStore::new());
            let (far, _) = comes_back(rt.alloc(), sheet.as_slice(), true, SureStore::new());
            expect_eq(&rt, (near, far), (true, true));
        }
        Err(_) => panic!(&rt; "not booted"),
    }
}
