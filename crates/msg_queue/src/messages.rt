//! The messages of a chain, one after another.

ghost use Rattle.std.specs.Prelude.{◌≡◌, ◌≤◌, length};
ghost use Rattle.std.specs.Iterator.{YieldsFirstRef, item_count};
ghost use Rattle.msg_queue.specs.Chains.{IsChain, chain};
ghost use Rattle.msg_queue.specs.Listings.{listed};
ghost use Rattle.msg_queue.specs.Spots.{AreFilledBy};

use crate::held::Held;
use crate::links::NONE;
use crate::walks::{length_of, message_in};
use std::marker::Model;
use xk_base::Message;

/// The messages of one list of a seat, in their order: an iterator that goes on from slot to slot.
#[derive(Drop)]
pub struct Messages<'a> {
    slots: &'a [Option<Held>],
    words: &'a [u8],
    slot: u8,
}

impl<'a> Model for Messages<'a> {
    ghost use Rattle.std.specs.Prelude.{List};
    ghost use Rattle.xk_base.specs.declared.messages.Message.{Message};

    ghost Value = { List Message };

    ghost use Rattle.msg_queue.specs.Messages.{left, IsSoundWalk};

    ghost view = { left };

    ghost invariant = { IsSoundWalk };
}

impl<'a> Messages<'a> {
    /// Those of the chain that begins at `first`.
    pub(crate) fn from_slot(slots: &'a [Option<Held>], words: &'a [u8], first: u8) -> Messages<'a>
        requires slots { length slots.now ≡ 128 }
        requires words { length words.now ≡ 128 }
        requires chain { IsChain words.now first (chain words.now first) }
        requires few { length (chain words.now first) ≤ 128 }
        requires filled { AreFilledBy slots.now (chain words.now first) }
        ensures { result ≡ listed slots.now words.now first }
    {
        Messages {
            slots,
            words,
            slot: first,
        }
    }

    /// How many are left.
    pub fn left(&self) -> u32
        ensures many { result ≡ length self.now }
        ensures few { length self.now ≤ 128 }
    {
        length_of(self.words, self.slot)
    }
}

impl<'a> Iterator for Messages<'a> {
    type Item = &'a Message;

    ghost next_gives = { YieldsFirstRef (λ left. left) };

    ghost remaining = { item_count (λ left. left) };

    fn next(&mut self) -> Option<&'a Message> {
        if self.slot == NONE {
            return None;
        }
        let message = message_in(self.slots, self.slot);
        self.slot = self.words[self.slot as usize];
        message
    }
}
