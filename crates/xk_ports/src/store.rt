//! The store that pages are swapped to: slots of 4096 bytes.

ghost use Rattle.std.specs.Prelude.{◌≡◌, ◌<◌, ◌≤◌, ℕ, Bool, List, Option, length, is_some, IsTrue, OnOk, OnErr};
ghost use Rattle.std.specs.Option.{option_copied, option_map};
ghost use Rattle.xk_base.specs.Outside.{Rose};
ghost use Rattle.xk_ports.specs.Store.{Contents, StoreAsked, AsksFor, HoldsZeros, SpoilsSlot, GivesPage, with_page};
ghost use Rattle.xk_base.specs.declared.limits.TheConstants.{SLOT_LIMIT};

use std::alloc::Global;
use thiserror::Error;
use xk_base::{Failed, Slot};

/// Why a store isn't prepared.
#[derive(Clone, Copy, Debug, PartialEq, Eq, Error)]
pub enum StoreFault {
    /// Something outside failed; the store has counted it.
    #[error("the store failed")]
    Failed,
    /// There was no memory.
    #[error("no memory for the store")]
    NoMemory,
}

/// A store of pages in numbered slots.
///
/// An honest store has zeros after `prepare`, `put_page` changes its slot alone to that page, and
/// `get_page` gives what is held and changes nothing. After a failed `put_page` nothing is known of
/// that slot.
pub trait SwapStore {
    /// Where it is told: what each slot holds.
    ghost held: { Self → Option Contents };

    /// Whether the store keeps pages as it is told to.
    ghost is_honest: { Self → Bool };

    /// How many slots there are.
    ghost slot_count: { Self → ℕ };

    /// Where it is told: the preparations that were asked for, in order.
    ghost asked: { Self → Option (List StoreAsked) };

    /// The count of faults.
    ghost faults: { Self → ℕ };

    /// Makes `slots` slots of zeros, in the file of that name where the store uses files. On Ok and
    /// on Failed the number, the name and the answer join the list of preparations asked for.
    fn prepare(&mut self, alloc: Global, slots: u32, name: Option<&str>) -> Result<(), StoreFault>
        requires { slots ≤ SLOT_LIMIT }
        ensures count { OnOk result (slot_count self.new ≡ slots) }
        ensures zeros { OnOk result (IsTrue (is_honest self.new) → HoldsZeros (held self.new) slots) }
        ensures kept { OnErr result (slot_count self.new ≡ slot_count self.old) }
        ensures asked { AsksFor (asked self.old) (asked self.new) slots (option_copied name.entry) result }
        ensures cause { result ≡ Err StoreFault.Failed → Rose (faults self.old) (faults self.new) }
        ensures never_falls { faults self.old ≤ faults self.new };

    /// How many slots there are.
    fn slots(&self) -> u32
        ensures { result ≡ slot_count self.now };

    /// Puts a page of 4096 bytes into a slot.
    fn put_page(&mut self, s: Slot, page: &[u8]) -> Result<(), Failed>
        requires slot { s.0 < slot_count self.old }
        requires whole { length page.now ≡ 4096 }
        ensures put { IsTrue (is_honest self.old)
            → OnOk result (held self.new ≡ option_map (λ pages. with_page pages s.0 page.now) (held self.old)) }
        ensures spoilt { IsTrue (is_honest self.old) → OnErr result (SpoilsSlot (held self.old) (held self.new) s.0) }
        ensures told { is_some (held self.new) ≡ is_some (held self.old) }
        ensures honest { is_honest self.new ≡ is_honest self.old }
        ensures count { slot_count self.new ≡ slot_count self.old }
        ensures asked { asked self.new ≡ asked self.old }
        ensures cause { OnErr result (Rose (faults self.old) (faults self.new)) }
        ensures never_falls { faults self.old ≤ faults self.new };

    /// Gets the page of a slot: 4096 bytes.
    fn get_page(&mut self, s: Slot, into: &mut [u8]) -> Result<(), Failed>
        requires slot { s.0 < slot_count self.old }
        requires whole { length into.old ≡ 4096 }
        ensures got { IsTrue (is_honest self.old) → OnOk result (GivesPage (held self.old) s.0 into.new) }
        ensures same { IsTrue (is_honest self.old) → held self.new ≡ held self.old }
        ensures told { is_some (held self.new) ≡ is_some (held self.old) }
        ensures honest { is_honest self.new ≡ is_honest self.old }
        ensures count { slot_count self.new ≡ slot_count self.old }
        ensures asked { asked self.new ≡ asked self.old }
        ensures cause { OnErr result (Rose (faults self.old) (faults self.new)) }
        ensures never_falls { faults self.old ≤ faults self.new };

    /// The count has a greatest value, at which it stays.
    ghost bounded: { (store : Self) → faults store ≤ 18446744073709551615 };
}
