//! The messages of all servers, by seat.

ghost use Rattle.std.specs.Prelude.{◌≡◌, ◌++◌, ◌<◌, ◌≤◌, ◌↔◌, IsTrue, IfOk, All, length, map, replicate, slice_get};
ghost use Rattle.std.specs.Option.{option_copied, option_map};
ghost use Rattle.xk_base.specs.declared.limits.TheConstants.{SERVER_LIMIT, MESSAGE_LIMIT};
ghost use Rattle.msg_queue.specs.Seats.{seat_of, empty_seat, used_of, of_number, place_found, message_of, IsFirstOf, changed_at};
ghost use Rattle.msg_queue.specs.Seats.{with_queued, with_held, with_held_at, without_queued_at, without_queued, without_held};

use crate::held::Held;
use crate::messages::Messages;
use crate::ring::Ring;
use std::alloc::Global;
use std::marker::Model;
use xk_base::limits::SERVER_LIMIT;
use xk_base::{Message, NoMemory, Number, Pid};

/// How many servers are alive at most.
const SEATS: usize = SERVER_LIMIT as usize;

/// The messages of the servers: of each seat those that are queued, and those that are held.
pub struct Queues {
    rings: Vec<Ring>,
}

impl Model for Queues {
    ghost use Rattle.std.specs.Prelude.{◌≡◌, List, length};
    ghost use Rattle.xk_base.specs.declared.limits.TheConstants.{SERVER_LIMIT};
    ghost use Rattle.msg_queue.specs.Seats.{Seat};

    ghost Value = { List Seat };

    ghost view = { λ q. q.rings.items };

    ghost invariant = { λ q. length q.rings.items ≡ SERVER_LIMIT };
}

/// Ends these rings, which must have no message.
fn close_all(mut rings: Vec<Ring>)
    requires { All (λ seat. used_of seat ≡ 0) rings.items }
{
    while let Some(ring) = rings.pop() {
        ring.close();
    }
    rings.destroy_empty();
}

impl Queues {
    /// No message at any seat. It takes all memory that the messages will ever need.
    pub fn new(alloc: Global) -> Result<Queues, NoMemory>
        ensures { IfOk result (λ queues. queues ≡ replicate SERVER_LIMIT empty_seat) }
    {
        let Ok(mut rings) = Vec::with_capacity(alloc, SEATS) else {
            return Err(NoMemory);
        };
        for _seat in 0..SEATS {
            match Ring::new(alloc) {
                Ok(ring) => rings.push_reserved(ring),
                Err(e) => {
                    close_all(rings);
                    return Err(e);
                }
            }
        }
        Ok(Queues { rings })
    }

    /// Ends the queues, which must have no message.
    pub fn close(self)
        requires { All (λ seat. used_of seat ≡ 0) self }
    {
        let Queues { rings } = self;
        close_all(rings);
    }

    /// How many messages are queued and held at the seat.
    pub fn used(&self, seat: u8) -> u32
        requires { seat < SERVER_LIMIT }
        ensures count { result ≡ used_of (seat_of self.now seat) }
        ensures few { used_of (seat_of self.now seat) ≤ MESSAGE_LIMIT }
        ensures seats { length self.now ≡ SERVER_LIMIT }
    {
        self.rings[seat as usize].used()
    }

    /// Whether the seat has as many messages as it can have.
    pub fn is_full(&self, seat: u8) -> bool
        requires { seat < SERVER_LIMIT }
        ensures full { IsTrue result ↔ (used_of (seat_of self.now seat) ≡ MESSAGE_LIMIT) }
        ensures few { used_of (seat_of self.now seat) ≤ MESSAGE_LIMIT }
    {
        self.rings[seat as usize].is_full()
    }

    /// Makes the message the newest queued.
    pub fn put(&mut self, seat: u8, h: Held)
        requires seat { seat < SERVER_LIMIT }
        requires room { used_of (seat_of self.old seat) < MESSAGE_LIMIT }
        ensures { self.new ≡ changed_at seat (with_queued h) self.old }
    {
        self.rings[seat as usize].put(h);
    }

    /// Takes the oldest queued message out; `None` exactly where none is queued.
    pub fn take_oldest(&mut self, seat: u8) -> Option<Held>
        requires { seat < SERVER_LIMIT }
        ensures message { result ≡ slice_get (seat_of self.old seat).queued 0 }
        ensures rest { self.new ≡ changed_at seat (without_queued_at 0) self.old }
    {
        self.rings[seat as usize].take_oldest()
    }

    /// Takes the queued message of that number out; `None` exactly where none has it.
    pub fn take_queued(&mut self, seat: u8, n: Number) -> Option<Held>
        requires { seat < SERVER_LIMIT }
        ensures message { result ≡ of_number n (seat_of self.old seat).queued }
        ensures rest { self.new ≡ changed_at seat (without_queued n) self.old }
    {
        self.rings[seat as usize].take_queued(n)
    }

    /// Makes the message the last of the held.
    pub fn hold(&mut self, seat: u8, h: Held)
        requires seat { seat < SERVER_LIMIT }
        requires room { used_of (seat_of self.old seat) < MESSAGE_LIMIT }
        ensures { self.new ≡ changed_at seat (with_held h) self.old }
    {
        self.rings[seat as usize].hold(h);
    }

    /// Puts the message at place `i` of the held, counted from 0.
    pub fn hold_at(&mut self, seat: u8, i: u32, h: Held)
        requires seat { seat < SERVER_LIMIT }
        requires room { used_of (seat_of self.old seat) < MESSAGE_LIMIT }
        requires place { i ≤ length (seat_of self.old seat).held }
        ensures { self.new ≡ changed_at seat (with_held_at i h) self.old }
    {
        self.rings[seat as usize].hold_at(i, h);
    }

    /// The held message of that number; `None` exactly where none has it.
    pub fn held(&self, seat: u8, n: Number) -> Option<&Message>
        requires { seat < SERVER_LIMIT }
        ensures { option_copied result ≡ option_map message_of (of_number n (seat_of self.now seat).held) }
    {
        let ring = &self.rings[seat as usize];
        ring.held(n)
    }

    /// Takes the held message of that number out; `None` exactly where none has it.
    pub fn take_held(&mut self, seat: u8, n: Number) -> Option<Held>
        requires { seat < SERVER_LIMIT }
        ensures message { result ≡ of_number n (seat_of self.old seat).held }
        ensures rest { self.new ≡ changed_at seat (without_held n) self.old }
    {
        self.rings[seat as usize].take_held(n)
    }

    /// The place of the held message of that number, counted from 0; `None` exactly where none has it.
    pub fn held_place(&self, seat: u8, n: Number) -> Option<u32>
        requires { seat < SERVER_LIMIT }
        ensures place { result ≡ place_found n (seat_of self.now seat).held }
        ensures few { used_of (seat_of self.now seat) ≤ MESSAGE_LIMIT }
    {
        self.rings[seat as usize].held_place(n)
    }

    /// The least message, queued or held, of a lend or a blocking scalar with a sender in the process; `None`
    /// exactly where there is none.
    pub fn first_of(&self, seat: u8, pid: Pid) -> Option<Number>
        requires { seat < SERVER_LIMIT }
        ensures { IsFirstOf pid ((seat_of self.now seat).queued ++ (seat_of self.now seat).held) result }
    {
        self.rings[seat as usize].first_of(pid)
    }

    /// The queued message at place `i`, counted from 0; `None` exactly past the last.
    pub fn queued_at(&self, seat: u8, i: u32) -> Option<&Message>
        requires { seat < SERVER_LIMIT }
        ensures { option_copied result ≡ option_map message_of (slice_get (seat_of self.now seat).queued i) }
    {
        let ring = &self.rings[seat as usize];
        ring.queued_at(i)
    }

    /// The held message at place `i`, counted from 0; `None` exactly past the last.
    pub fn held_at(&self, seat: u8, i: u32) -> Option<&Message>
        requires { seat < SERVER_LIMIT }
        ensures { option_copied result ≡ option_map message_of (slice_get (seat_of self.now seat).held i) }
    {
        let ring = &self.rings[seat as usize];
        ring.held_at(i)
    }

    /// The queued messages, the oldest first, each found from the one before it.
    pub fn queued_messages(&self, seat: u8) -> Messages<'_>
        requires { seat < SERVER_LIMIT }
        ensures { result ≡ map message_of (seat_of self.now seat).queued }
    {
        let ring = &self.rings[seat as usize];
        ring.queued_messages()
    }

    /// The held messages, in the order in which they stand.
    pub fn held_messages(&self, seat: u8) -> Messages<'_>
        requires { seat < SERVER_LIMIT }
        ensures { result ≡ map message_of (seat_of self.now seat).held }
    {
        let ring = &self.rings[seat as usize];
        ring.held_messages()
    }
}
