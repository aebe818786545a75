//! A store in memory, with calls that are to fail.

ghost use Rattle.std.specs.Prelude.{◌≡◌, ◌<◌, ◌≤◌, map, length, is_err, OnOk, OnErr};
ghost use Rattle.std.specs.Option.{option_copied};
ghost use Rattle.xk_ports.specs.Calls.{no_calls, is_next_to_fail, called, failed};
ghost use Rattle.xk_ports.specs.MemStore.{MemPrepares};
ghost use Rattle.xk_ports.specs.Pages.{no_pages, contents_of, PutsPage};
ghost use Rattle.xk_ports.specs.PagesView.{shown_preparation};
ghost use Rattle.xk_base.specs.declared.limits.TheConstants.{SLOT_LIMIT};

use crate::calls::Calls;
use crate::pages::{Pages, Preparation};
use crate::store::{StoreFault, SwapStore};
use std::alloc::Global;
use std::marker::Model;
use xk_base::{Failed, Slot};

/// An honest store that keeps its pages in memory, and tells all of them.
#[derive(Debug, Drop)]
pub struct MemStore {
    pages: Pages,
    calls: Calls,
}

impl Model for MemStore {
    ghost use Rattle.xk_ports.specs.MemStore.{MemStoreState};

    ghost Value = { MemStoreState };

    ghost view = { λ s. record { pages = s.pages; calls = s.calls } };
}

impl MemStore {
    /// A store without slots. The calls of `prepare`, `put_page` and `get_page` whose numbers
    /// `fails` lists are to fail, counting from 1.
    pub fn new(fails: Vec<u64>) -> MemStore
        ensures { result ≡ record { pages = no_pages; calls = no_calls fails.items } }
    {
        MemStore {
            pages: Pages::new(),
            calls: Calls::new(fails),
        }
    }

    /// The preparations that were asked for, in order.
    pub fn preparations(&self) -> &[Preparation]
        ensures { map shown_preparation result.now ≡ self.now.pages.asked }
    {
        self.pages.preparations()
    }
}

impl SwapStore for MemStore {
    ghost use Rattle.std.specs.Prelude.{Some, true};
    ghost use Rattle.std.proofs.Common.{arith};
    ghost use Rattle.xk_ports.specs.Calls.{faults_of};
    ghost use Rattle.xk_ports.specs.Pages.{contents_of};

    ghost held = { λ s. Some (contents_of s.pages.bytes) };

    ghost is_honest = { λ _. true };

    ghost slot_count = { λ s. s.pages.slots };

    ghost asked = { λ s. Some s.pages.asked };

    ghost faults = { λ s. faults_of s.calls };

    ghost bounded = { λ s. Prim.omega arith };

    /// Fails exactly where its number is listed. The name is kept, and has no other use.
    fn prepare(&mut self, alloc: Global, slots: u32, name: Option<&str>) -> Result<(), StoreFault>
        requires { slots ≤ SLOT_LIMIT }
        ensures { MemPrepares self.old self.new slots (option_copied name.entry) result }
    {
        if self.calls.count() {
            return match self.pages.note(alloc, slots, name, false) {
                Ok(()) => {
                    self.calls.fault();
                    Err(StoreFault::Failed)
                }
                Err(_) => Err(StoreFault::NoMemory),
            };
        }
        match self.pages.prepare(alloc, slots, name) {
            Ok(()) => Ok(()),
            Err(_) => Err(StoreFault::NoMemory),
        }
    }

    fn slots(&self) -> u32 {
        self.pages.slots()
    }

    /// Fails exactly where its number is listed.
    fn put_page(&mut self, s: Slot, page: &[u8]) -> Result<(), Failed>
        requires slot { s.0 < self.old.pages.slots }
        requires whole { length page.now ≡ 4096 }
        ensures fails { is_err result ≡ is_next_to_fail self.old.calls }
        ensures ok { OnOk result (PutsPage self.old.pages self.new.pages s.0 page.now) }
        ensures calls { OnOk result (self.new.calls ≡ called self.old.calls) }
        ensures err { OnErr result (self.new ≡ record self.old { calls = failed self.old.calls }) }
    {
        if self.calls.count() {
            self.calls.fault();
            return Err(Failed);
        }
        self.pages.put(s, page);
        Ok(())
    }

    /// Fails exactly where its number is listed.
    fn get_page(&mut self, s: Slot, into: &mut [u8]) -> Result<(), Failed>
        requires slot { s.0 < self.old.pages.slots }
        requires whole { length into.old ≡ 4096 }
        ensures fails { is_err result ≡ is_next_to_fail self.old.calls }
        ensures ok { OnOk result (into.new ≡ contents_of self.old.pages.bytes s.0) }
        ensures calls { OnOk result (self.new ≡ record self.old { calls = called self.old.calls }) }
        ensures err { OnErr result (self.new ≡ record self.old { calls = failed self.old.calls }) }
    {
        if self.calls.count() {
            self.calls.fault();
            return Err(Failed);
        }
        self.pages.get(s, into);
        Ok(())
    }
}
