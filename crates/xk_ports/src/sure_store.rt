//! A store that never fails.

ghost use Rattle.std.specs.Prelude.{◌≡◌, ◌<◌, ◌≤◌, map, length, OnOk, OnErr};
ghost use Rattle.std.specs.Option.{option_copied};
ghost use Rattle.xk_ports.specs.Pages.{no_pages, contents_of, IsPrepared, PutsPage};
ghost use Rattle.xk_ports.specs.PagesView.{shown_preparation};
ghost use Rattle.xk_base.specs.declared.limits.TheConstants.{SLOT_LIMIT};

use crate::pages::{Pages, Preparation};
use crate::store::{StoreFault, SwapStore};
use std::alloc::Global;
use std::marker::Model;
use xk_base::{Failed, Slot};

/// An honest store without faults. It keeps its pages in memory, and tells all of them.
#[derive(Debug, Drop)]
pub struct SureStore {
    pages: Pages,
}

impl Model for SureStore {
    ghost use Rattle.xk_ports.specs.Pages.{PagesState};

    ghost Value = { PagesState };

    ghost view = { λ s. s.pages };
}

impl SureStore {
    /// A store without slots.
    pub fn new() -> SureStore
        ensures { result ≡ no_pages }
    {
        SureStore {
            pages: Pages::new(),
        }
    }

    /// The preparations that were asked for, in order.
    pub fn preparations(&self) -> &[Preparation]
        ensures { map shown_preparation result.now ≡ self.now.asked }
    {
        self.pages.preparations()
    }
}

impl SwapStore for SureStore {
    ghost use Rattle.std.specs.Prelude.{Some, true};
    ghost use Rattle.std.proofs.Common.{arith};
    ghost use Rattle.xk_ports.specs.Pages.{contents_of};

    ghost held = { λ s. Some (contents_of s.bytes) };

    ghost is_honest = { λ _. true };

    ghost slot_count = { λ s. s.slots };

    ghost asked = { λ s. Some s.asked };

    ghost faults = { λ _. 0 };

    ghost bounded = { λ _. Prim.omega arith };

    /// Answers Ok, or NoMemory with all as it was.
    fn prepare(&mut self, alloc: Global, slots: u32, name: Option<&str>) -> Result<(), StoreFault>
        requires { slots ≤ SLOT_LIMIT }
        ensures ok { OnOk result (IsPrepared self.old self.new slots (option_copied name.entry)) }
        ensures memory { OnErr result (result ≡ Err StoreFault.NoMemory) }
        ensures err { OnErr result (self.new ≡ self.old) }
    {
        match self.pages.prepare(alloc, slots, name) {
            Ok(()) => Ok(()),
            Err(_) => Err(StoreFault::NoMemory),
        }
    }

    fn slots(&self) -> u32 {
        self.pages.slots()
    }

    /// Never fails.
    fn put_page(&mut self, s: Slot, page: &[u8]) -> Result<(), Failed>
        requires slot { s.0 < self.old.slots }
        requires whole { length page.now ≡ 4096 }
        ensures ok { result ≡ Ok tt }
        ensures puts { PutsPage self.old self.new s.0 page.now }
    {
        self.pages.put(s, page);
        Ok(())
    }

    /// Never fails.
    fn get_page(&mut self, s: Slot, into: &mut [u8]) -> Result<(), Failed>
        requires slot { s.0 < self.old.slots }
        requires whole { length into.old ≡ 4096 }
        ensures ok { result ≡ Ok tt }
        ensures gives { into.new ≡ contents_of self.old.bytes s.0 }
        ensures same { self.new ≡ self.old }
    {
        self.pages.get(s, into);
        Ok(())
    }
}
