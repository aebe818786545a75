//! The messages of one server, in a ring of slots.

ghost use Rattle.std.specs.Prelude.{◌≡◌, ◌++◌, IfOk, ◌<◌, ◌≤◌, ◌↔◌, IsTrue, length, map, slice_get};
ghost use Rattle.std.specs.Option.{option_copied, option_map};
ghost use Rattle.msg_queue.specs.Seats.{empty_seat, used_of, of_number, place_found, message_of, IsFirstOf};
ghost use Rattle.msg_queue.specs.Seats.{with_queued, with_held, with_held_at, without_queued_at, without_queued, without_held};

use crate::held::Held;
use crate::links::{NONE, SLOTS, put_in, take_out};
use crate::messages::Messages;
use crate::walks::{Spot, least_of, length_of, message_in, message_place, spot_at, spot_of};
use std::alloc::Global;
use std::marker::Model;
use xk_base::{Message, NoMemory, Number, Pid};

/// 128 slots, each in one of three chains: free, queued and held. `next` has the number of the slot
/// behind each slot in its chain.
pub struct Ring {
    slots: Vec<Option<Held>>,
    next: Vec<u8>,
    free: u8,
    queued: u8,
    held: u8,
    last_queued: u8,
    last_held: u8,
}

impl Model for Ring {
    ghost use Rattle.msg_queue.specs.Seats.{Seat};

    ghost Value = { Seat };

    ghost use Rattle.msg_queue.specs.Shown.{shown, IsSound};

    ghost view = { shown };

    ghost invariant = { IsSound };
}

impl Ring {
    /// A ring without messages. It takes all memory that it will ever need.
    pub fn new(alloc: Global) -> Result<Ring, NoMemory>
        ensures { IfOk result (λ ring. ring ≡ empty_seat) }
    {
        let Ok(mut next) = Vec::with_capacity(alloc, SLOTS as usize) else {
            return Err(NoMemory);
        };
        let Ok(mut slots) = Vec::with_capacity(alloc, SLOTS as usize) else {
            return Err(NoMemory);
        };
        for slot in 0..NONE {
            next.push_reserved(slot + 1);
            slots.push_reserved(None);
        }
        Ok(Ring {
            slots,
            next,
            free: 0,
            queued: NONE,
            held: NONE,
            last_queued: NONE,
            last_held: NONE,
        })
    }

    /// Ends the ring, which must have no message.
    pub fn close(self)
        requires { used_of self ≡ 0 }
    {
        let Ring {
            mut slots,
            next: _,
            free: _,
            queued: _,
            held: _,
            last_queued: _,
            last_held: _,
        } = self;
        while let Some(slot) = slots.pop() {
            match slot {
                None => {}
                Some(_) => unreachable!(),
            }
        }
        slots.destroy_empty();
    }

    /// Whether all slots are used.
    pub fn is_full(&self) -> bool
        ensures full { IsTrue result ↔ (used_of self.now ≡ 128) }
        ensures few { used_of self.now ≤ 128 }
    {
        self.free == NONE
    }

    /// Makes the message the newest queued.
    pub fn put(&mut self, h: Held)
        requires { used_of self.old < 128 }
        ensures { self.new ≡ with_queued h self.old }
    {
        let before = self.last_queued;
        put_in(
            &mut self.slots,
            &mut self.next,
            &mut self.free,
            &mut self.queued,
            &mut self.last_queued,
            before,
            h,
        );
    }

    /// Takes the oldest queued message out.
    pub fn take_oldest(&mut self) -> Option<Held>
        ensures message { result ≡ slice_get self.old.queued 0 }
        ensures rest { self.new ≡ without_queued_at 0 self.old }
    {
        let spot = Spot {
            before: NONE,
            slot: self.queued,
        };
        if spot.slot == NONE {
            return None;
        }
        take_out(
            &mut self.slots,
            &mut self.next,
            &mut self.free,
            &mut self.queued,
            &mut self.last_queued,
            spot,
        )
    }

    /// Makes the message the last of the held.
    pub fn hold(&mut self, h: Held)
        requires { used_of self.old < 128 }
        ensures { self.new ≡ with_held h self.old }
    {
        let before = self.last_held;
        put_in(
            &mut self.slots,
            &mut self.next,
            &mut self.free,
            &mut self.held,
            &mut self.last_held,
            before,
            h,
        );
    }

    /// Puts the message at that place of the held.
    pub fn hold_at(&mut self, place: u32, h: Held)
        requires room { used_of self.old < 128 }
        requires place { place ≤ length self.old.held }
        ensures { self.new ≡ with_held_at place h self.old }
    {
        let spot = spot_at(self.next.as_slice(), self.held, place);
        put_in(
            &mut self.slots,
            &mut self.next,
            &mut self.free,
            &mut self.held,
            &mut self.last_held,
            spot.before,
            h,
        );
    }

    /// Takes the queued message of that number out.
    pub fn take_queued(&mut self, number: Number) -> Option<Held>
        ensures message { result ≡ of_number number self.old.queued }
        ensures rest { self.new ≡ without_queued number self.old }
    {
        let spot = spot_of(
            self.slots.as_slice(),
            self.next.as_slice(),
            self.queued,
            number,
        );
        if spot.slot == NONE {
            return None;
        }
        take_out(
            &mut self.slots,
            &mut self.next,
            &mut self.free,
            &mut self.queued,
            &mut self.last_queued,
            spot,
        )
    }

    /// Takes the held message of that number out.
    pub fn take_held(&mut self, number: Number) -> Option<Held>
        ensures message { result ≡ of_number number self.old.held }
        ensures rest { self.new ≡ without_held number self.old }
    {
        let spot = spot_of(
            self.slots.as_slice(),
            self.next.as_slice(),
            self.held,
            number,
        );
        if spot.slot == NONE {
            return None;
        }
        take_out(
            &mut self.slots,
            &mut self.next,
            &mut self.free,
            &mut self.held,
            &mut self.last_held,
            spot,
        )
    }

    /// How many messages are queued and held.
    pub fn used(&self) -> u32
        ensures count { result ≡ used_of self.now }
        ensures few { used_of self.now ≤ 128 }
    {
        length_of(self.next.as_slice(), self.queued) + length_of(self.next.as_slice(), self.held)
    }

    /// The queued message at that place, counted from 0.
    pub fn queued_at(&self, place: u32) -> Option<&Message>
        ensures { option_copied result ≡ option_map message_of (slice_get self.now.queued place) }
    {
        let spot = spot_at(self.next.as_slice(), self.queued, place);
        message_in(self.slots.as_slice(), spot.slot)
    }

    /// The held message at that place, counted from 0.
    pub fn held_at(&self, place: u32) -> Option<&Message>
        ensures { option_copied result ≡ option_map message_of (slice_get self.now.held place) }
    {
        let spot = spot_at(self.next.as_slice(), self.held, place);
        message_in(self.slots.as_slice(), spot.slot)
    }

    /// The queued messages, the oldest first.
    pub fn queued_messages(&self) -> Messages<'_>
        ensures { result ≡ map message_of self.now.queued }
    {
        Messages::from_slot(self.slots.as_slice(), self.next.as_slice(), self.queued)
    }

    /// The held messages, in the order in which they stand.
    pub fn held_messages(&self) -> Messages<'_>
        ensures { result ≡ map message_of self.now.held }
    {
        Messages::from_slot(self.slots.as_slice(), self.next.as_slice(), self.held)
    }

    /// The held message of that number.
    pub fn held(&self, number: Number) -> Option<&Message>
        ensures { option_copied result ≡ option_map message_of (of_number number self.now.held) }
    {
        let spot = spot_of(
            self.slots.as_slice(),
            self.next.as_slice(),
            self.held,
            number,
        );
        message_in(self.slots.as_slice(), spot.slot)
    }

    /// The place of the held message of that number, counted from 0.
    pub fn held_place(&self, number: Number) -> Option<u32>
        ensures place { result ≡ place_found number self.now.held }
        ensures few { used_of self.now ≤ 128 }
    {
        message_place(
            self.slots.as_slice(),
            self.next.as_slice(),
            self.held,
            number,
        )
    }

    /// The least message, queued or held, whose answer a thread of the process waits for.
    pub fn first_of(&self, pid: Pid) -> Option<Number>
        ensures { IsFirstOf pid (self.now.queued ++ self.now.held) result }
    {
        let queued = least_of(
            self.slots.as_slice(),
            self.next.as_slice(),
            self.queued,
            pid,
            None,
        );
        least_of(
            self.slots.as_slice(),
            self.next.as_slice(),
            self.held,
            pid,
            queued,
        )
    }
}

#[cfg(test)]
mod tests;
