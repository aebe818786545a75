//! What is asked of the places of a run.

ghost use Rattle.std.specs.Prelude.{◌≡◌, ℕ, true, false};
ghost use Rattle.ledger_model.specs.Places.{place_after};
ghost use Rattle.ledger_model.specs.RunTests.{console_mapped};
ghost use Rattle.page_views.specs.Here.{here_at};
ghost use Rattle.vm_memory.specs.Memory.{ledger, processes};
ghost use Rattle.page_views.specs.RunTests.{any_passes};
ghost use Rattle.vm_memory.specs.Sound.{IsSound};

use crate::memory::Memory;
use page_views::{Here, RunTest};
use sv32_space::maps_console;
use xk_base::{Pid, Place, Vpn};
use xk_ports::SwapStore;

impl<W: SwapStore> Memory<W> {
    // What is at the place `i` pages above another.
    fn here_above(&self, first: Place, i: u32) -> Here
        requires sound { IsSound W.slot_count self.now }
        ensures { result ≡ here_at (processes self.now) (ledger W.held self.now) (place_after first i) }
    {
        match first.vpn.0.checked_add(i) {
            Some(vpn) => self.at(Place {
                pid: first.pid,
                vpn: Vpn(vpn),
            }),
            None => Here::Nothing,
        }
    }

    // Whether a place of the run passes the test.
    pub(crate) fn any(&self, first: Place, n: u32, test: RunTest) -> bool
        requires sound { IsSound W.slot_count self.now }
        ensures { result ≡ any_passes test (processes self.now) (ledger W.held self.now) first n }
    {
        for i in 0..n {
            if test.passes(self.here_above(first, i)) {
                return true;
            }
        }
        false
    }

    // Whether any process has mapped the console.
    pub(crate) fn console_mapped(&self) -> bool
        requires sound { IsSound W.slot_count self.now }
        ensures { result ≡ console_mapped (processes self.now) (ledger W.held self.now) }
    {
        for k in 0..self.procs {
            if maps_console(&self.ram, Pid(2 + k as u8)) {
                return true;
            }
        }
        false
    }
}
