//! Walks along a chain of a ring.

ghost use Rattle.std.specs.Prelude.{◌≡◌, ◌<◌, ◌≤◌, List, [], ◌∷◌, ◌++◌, Some, length};
ghost use Rattle.std.specs.Option.{option_copied, option_map};
ghost use Rattle.xk_base.specs.Tables.RowMap.{row_map};
ghost use Rattle.msg_queue.specs.Chains.{IsChain, chain};
ghost use Rattle.msg_queue.specs.Shown.{messages};
ghost use Rattle.msg_queue.specs.Seats.{message_place, place_found, message_of, is_awaited_in, IsFirstOf};
ghost use Rattle.msg_queue.specs.Spots.{spot_in, slot_has, AreFilledBy};
ghost use Rattle.msg_queue.specs.declared.held.Held.{Held};

use crate::held::Held;
use crate::links::{NONE, SLOTS};
use xk_base::{Message, Number, Pid};

/// A slot of a chain and the slot before it; `NONE` where there is none.
#[derive(Clone, Copy)]
pub struct Spot {
    pub before: u8,
    pub slot: u8,
}

/// The spot at that place of the chain, or its end where the chain is no longer than that.
pub fn spot_at(next: &[u8], first: u8, place: u32) -> Spot
    requires words { length next.now ≡ 128 }
    requires chain { IsChain next.now first (chain next.now first) }
    ensures { result ≡ spot_in (chain next.now first) place }
{
    let mut spot = Spot {
        before: NONE,
        slot: first,
    };
    for _place in 0..place {
        if spot.slot == NONE {
            return spot;
        }
        spot = Spot {
            before: spot.slot,
            slot: next[spot.slot as usize],
        };
    }
    spot
}

/// Whether the slot has a message of that number.
fn has_number(slot: &Option<Held>, number: Number) -> bool
    ensures { result ≡ slot_has number slot.now }
{
    match slot {
        Some(h) => h.msg.number == number,
        None => false,
    }
}

/// The spot of the first message of that number in the chain, or the chain's end.
pub fn spot_of(slots: &[Option<Held>], next: &[u8], first: u8, number: Number) -> Spot
    requires slots { length slots.now ≡ 128 }
    requires words { length next.now ≡ 128 }
    requires chain { IsChain next.now first (chain next.now first) }
    requires few { length (chain next.now first) ≤ 128 }
    requires filled { AreFilledBy slots.now (chain next.now first) }
    ensures { result ≡ spot_in (chain next.now first) (message_place number (messages slots.now (chain next.now first))) }
{
    let mut spot = Spot {
        before: NONE,
        slot: first,
    };
    for _place in 0..SLOTS {
        if spot.slot == NONE {
            return spot;
        }
        if has_number(&slots[spot.slot as usize], number) {
            return spot;
        }
        spot = Spot {
            before: spot.slot,
            slot: next[spot.slot as usize],
        };
    }
    spot
}

/// The place of the first message of that number in the chain, counted from 0; `None` where none has it.
pub fn message_place(slots: &[Option<Held>], next: &[u8], first: u8, number: Number) -> Option<u32>
    requires slots { length slots.now ≡ 128 }
    requires words { length next.now ≡ 128 }
    requires chain { IsChain next.now first (chain next.now first) }
    requires few { length (chain next.now first) ≤ 128 }
    requires filled { AreFilledBy slots.now (chain next.now first) }
    ensures { result ≡ place_found number (messages slots.now (chain next.now first)) }
{
    let mut spot = Spot {
        before: NONE,
        slot: first,
    };
    for place in 0..SLOTS {
        if spot.slot == NONE {
            return None;
        }
        if has_number(&slots[spot.slot as usize], number) {
            return Some(place);
        }
        spot = Spot {
            before: spot.slot,
            slot: next[spot.slot as usize],
        };
    }
    None
}

/// How long the chain is.
pub fn length_of(next: &[u8], first: u8) -> u32
    requires words { length next.now ≡ 128 }
    requires chain { IsChain next.now first (chain next.now first) }
    requires few { length (chain next.now first) ≤ 128 }
    ensures { result ≡ length (chain next.now first) }
{
    let mut spot = Spot {
        before: NONE,
        slot: first,
    };
    for place in 0..SLOTS {
        if spot.slot == NONE {
            return place;
        }
        spot = Spot {
            before: spot.slot,
            slot: next[spot.slot as usize],
        };
    }
    SLOTS
}

/// The message in that slot; `None` for no slot too.
pub fn message_in(slots: &[Option<Held>], slot: u8) -> Option<&Message>
    requires { length slots.now ≡ 128 }
    ensures { option_copied result ≡ option_map message_of (row_map slots.now slot) }
{
    if slot >= NONE {
        return None;
    }
    match &slots[slot as usize] {
        Some(h) => Some(&h.msg),
        None => None,
    }
}

/// Whether a thread of the process waits for the answer to the message.
#[tactic(auto, unfolding(crate::specs::Seats::is_awaited_in))]
fn is_awaited_in(pid: Pid, h: &Held) -> bool
    ensures { result ≡ is_awaited_in pid h.now }
{
    let answered = h.msg.kind.is_answered();
    let Some(sender) = h.msg.sender else {
        return false;
    };
    answered && sender.pid == pid
}

/// The lower of the least number so far and that of the slot's message, where it counts.
fn least_with(least: Option<Number>, slot: &Option<Held>, pid: Pid) -> Option<Number>
    ensures { (seen : List Held) (h : Held) → slot.now ≡ Some h
        → IsFirstOf pid seen least → IsFirstOf pid (seen ++ h ∷ []) result }
{
    let Some(h) = slot else {
        return least;
    };
    if !is_awaited_in(pid, h) {
        return least;
    }
    match least {
        Some(lowest) if lowest.0 <= h.msg.number.0 => least,
        _ => Some(h.msg.number),
    }
}

/// The least message of the chain that a thread of the process waits for, where `least` is that of the
/// messages seen before.
pub fn least_of(
    slots: &[Option<Held>],
    next: &[u8],
    first: u8,
    pid: Pid,
    least: Option<Number>,
) -> Option<Number>
    requires slots { length slots.now ≡ 128 }
    requires words { length next.now ≡ 128 }
    requires chain { IsChain next.now first (chain next.now first) }
    requires few { length (chain next.now first) ≤ 128 }
    requires filled { AreFilledBy slots.now (chain next.now first) }
    ensures { (seen : List Held)
        → IsFirstOf pid seen least → IsFirstOf pid (seen ++ messages slots.now (chain next.now first)) result }
{
    let mut spot = Spot {
        before: NONE,
        slot: first,
    };
    let mut lowest = least;
    for _place in 0..SLOTS {
        if spot.slot == NONE {
            return lowest;
        }
        lowest = least_with(lowest, &slots[spot.slot as usize], pid);
        spot = Spot {
            before: spot.slot,
            slot: next[spot.slot as usize],
        };
    }
    lowest
}
