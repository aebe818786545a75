//! The link words of a ring: how a slot comes into a chain, and how it leaves.

ghost use Rattle.std.specs.Prelude.{◌≡◌, ◌<◌, ◌≤◌, false, Some, None, is_some, vec_len, slice_index, slice_set};
ghost use Rattle.xk_base.specs.Tables.RowMap.{row_map};
ghost use Rattle.msg_queue.specs.Linking.{linked_words, linked_first, linked_last, unlinked_words, unlinked_first, unlinked_last};

use crate::held::Held;
use crate::walks::Spot;

/// The slots of a ring.
pub const SLOTS: u32 = 128;

/// The number that stands for no slot.
pub const NONE: u8 = 128;

/// Puts the slot behind `before` into the chain from `first` to `last`; at the front where `before` is none.
pub fn link(next: &mut Vec<u8>, first: &mut u8, last: &mut u8, before: u8, slot: u8)
    requires words { vec_len next.old ≡ 128 }
    requires slot { slot < 128 }
    requires before { before ≤ 128 }
    ensures words { next.new.items ≡ linked_words next.old.items first.old before slot }
    ensures first { first.new ≡ linked_first first.old before slot }
    ensures last { last.new ≡ linked_last last.old before slot }
{
    if before == NONE {
        next[slot as usize] = *first;
        *first = slot;
    } else {
        next[slot as usize] = next[before as usize];
        next[before as usize] = slot;
    }
    if *last == before {
        *last = slot;
    }
}

/// Takes the slot behind `before` out of the chain from `first` to `last`; the first where `before` is none.
pub fn unlink(next: &mut Vec<u8>, first: &mut u8, last: &mut u8, before: u8, slot: u8)
    requires words { vec_len next.old ≡ 128 }
    requires slot { slot < 128 }
    requires before { before ≤ 128 }
    ensures words { next.new.items ≡ unlinked_words next.old.items before slot }
    ensures first { first.new ≡ unlinked_first next.old.items first.old before slot }
    ensures last { last.new ≡ unlinked_last last.old before slot }
{
    if before == NONE {
        *first = next[slot as usize];
    } else {
        next[before as usize] = next[slot as usize];
    }
    if *last == slot {
        *last = before;
    }
}

/// Puts the message into the first free slot, and that slot behind `before` into the chain from `first` to
/// `last`.
pub fn put_in(
    slots: &mut Vec<Option<Held>>,
    next: &mut Vec<u8>,
    free: &mut u8,
    first: &mut u8,
    last: &mut u8,
    before: u8,
    h: Held,
)
    requires slots { vec_len slots.old ≡ 128 }
    requires words { vec_len next.old ≡ 128 }
    requires free { free.old < 128 }
    requires empty { is_some (row_map slots.old.items free.old) ≡ false }
    requires before { before ≤ 128 }
    ensures slots { slots.new.items ≡ slice_set slots.old.items free.old (Some h) }
    ensures words { next.new.items ≡ linked_words next.old.items first.old before free.old }
    ensures free { free.new ≡ slice_index next.old.items free.old }
    ensures first { first.new ≡ linked_first first.old before free.old }
    ensures last { last.new ≡ linked_last last.old before free.old }
{
    let slot = *free;
    *free = next[slot as usize];
    link(next, first, last, before, slot);
    match std::mem::replace(&mut slots[slot as usize], Some(h)) {
        None => {}
        Some(_) => unreachable!(),
    }
}

/// Takes the slot at the spot out of the chain from `first` to `last`, and the message out of the slot,
/// which is then the first free one.
pub fn take_out(
    slots: &mut Vec<Option<Held>>,
    next: &mut Vec<u8>,
    free: &mut u8,
    first: &mut u8,
    last: &mut u8,
    spot: Spot,
) -> Option<Held>
    requires slots { vec_len slots.old ≡ 128 }
    requires words { vec_len next.old ≡ 128 }
    requires slot { spot.slot < 128 }
    requires before { spot.before ≤ 128 }
    ensures message { result ≡ row_map slots.old.items spot.slot }
    ensures slots { slots.new.items ≡ slice_set slots.old.items spot.slot None }
    ensures words { next.new.items ≡ slice_set (unlinked_words next.old.items spot.before spot.slot) spot.slot free.old }
    ensures free { free.new ≡ spot.slot }
    ensures first { first.new ≡ unlinked_first next.old.items first.old spot.before spot.slot }
    ensures last { last.new ≡ unlinked_last last.old spot.before spot.slot }
{
    unlink(next, first, last, spot.before, spot.slot);
    next[spot.slot as usize] = *free;
    *free = spot.slot;
    slots[spot.slot as usize].take()
}
