//! All orders of the image of the first run are searched.

ghost use Rattle.std.specs.Prelude.{◌≤◌, length};

use crate::expecting::expect_eq;
use boot_plan::plan;
use graph_search::{Strategy, Turn};
use kernel_args::read_args;
use order_model::Orders;
use order_search::{Quest, Subject, begin_search, follow_node};
use std::alloc::Global;

/// The image of the first run with RAM of 256 KiB.
const SMALL_IMAGE: [u8; 88] = [
    0x58, 0x41, 0x72, 0x67, 0x22, 0x64, 0x05, 0x00, 0x0d, 0x00, 0x00, 0x00, 0x01, 0x00, 0x00, 0x00,
    0x00, 0x00, 0x00, 0x40, 0x00, 0x00, 0x04, 0x00, 0x73, 0x72, 0x61, 0x6d, 0x49, 0x6e, 0x69, 0x45,
    0xd5, 0xfe, 0x04, 0x00, 0x34, 0x00, 0x00, 0x00, 0x00, 0x00, 0x01, 0x00, 0x00, 0x00, 0x01, 0x00,
    0x24, 0x00, 0x00, 0x04, 0x13, 0x05, 0x20, 0x00, 0xb7, 0x05, 0x00, 0xf0, 0x13, 0x06, 0x00, 0x00,
    0xb7, 0x16, 0x00, 0x00, 0x13, 0x07, 0x60, 0x00, 0x73, 0x00, 0x00, 0x00, 0x93, 0x07, 0x80, 0x06,
    0x23, 0x80, 0xf5, 0x00, 0x6f, 0x00, 0x00, 0x00,
];

// A search of the orders of an image in slices of up to seven steps, of which so many may be preempted.
fn quest_of(alloc: Global, image: &[u8], bound: Option<u32>, preemptions: u32) -> Option<Quest>
    requires few { length image.now ≤ 67108864 }
{
    let args = read_args(alloc, image).ok()?;
    let plan = plan(alloc, &args, image, Some(0)).ok()?;
    let mut file = Vec::new(alloc);
    file.extend_from_slice(image).ok()?;
    let orders = Orders {
        quantum: 7,
        bound,
        once: Vec::new(alloc),
        exits: true,
        preemptions,
    };
    let subject = Subject {
        plan,
        file,
        before: Vec::new(alloc),
        orders,
    };
    Quest::new(alloc, subject).ok()
}

// How many nodes a search follows, if it is whole.
fn nodes_of(
    alloc: Global,
    bound: Option<u32>,
    preemptions: u32,
    strategy: Strategy,
) -> Option<usize> {
    let mut quest = quest_of(alloc, &SMALL_IMAGE, bound, preemptions)?;
    let Ok(mut search) = begin_search(alloc, &mut quest, strategy) else {
        return None;
    };
    for _turn in 0..20 {
        match follow_node(alloc, &mut quest, &mut search, 20) {
            Ok(Turn::Followed) => {}
            Ok(Turn::Whole) => return Some(search.notes().len()),
            Ok(Turn::Cut(_)) | Err(_) => return None,
        }
    }
    None
}

// The thread has slices of 6 steps up to its call, of 2 up to its store to the console, and then of 7 of its loop, which is one jump to
// itself. These lead to where they began; where steps count, to others after 15, 22 and 27 of them. With one preemption there are besides:
// the 5 and 1 nodes within the first two slices, and those of their ends again.
#[test]
fn orders_are_searched(rt: HostRuntime) {
    let alloc = rt.alloc();
    expect_eq(&rt, nodes_of(alloc, None, 0, Strategy::Breadth), Some(3));
    expect_eq(
        &rt,
        nodes_of(alloc, Some(27), 0, Strategy::Breadth),
        Some(6),
    );
    expect_eq(&rt, nodes_of(alloc, None, 1, Strategy::Depth), Some(11));
}
