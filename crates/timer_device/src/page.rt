//! A memory with the timer's page over it.

ghost use Rattle.std.specs.Prelude.{◌≡◌};
ghost use Rattle.timer_device.specs.Page.{is_served};

use crate::device::Timer;
use xk_base::limits::{PAGE_SIZE, TIMER_ADDRESS};
use xk_base::{Failed, Stored, UserMemory, Width};

/// The memory of a process, with the timer's page over it where `on`: the page is for loads and
/// stores of the timer, and no fetch, whatever `inner` has there. All else is `inner`'s, and where not
/// `on` everything is.
#[derive(Drop)]
pub struct TimerView<U: UserMemory> {
    pub inner: U,
    pub timer: Timer,
    /// Whether the timer's page is there.
    pub on: bool,
    /// The steps done before this one.
    pub steps: u32,
}

impl<U: UserMemory> TimerView<U> {
    // Whether the timer serves an address.
    fn serves(&self, va: u32) -> bool
        ensures { result ≡ is_served self.now.on va }
    {
        self.on && va / PAGE_SIZE == TIMER_ADDRESS / PAGE_SIZE
    }
}

impl<U: UserMemory> UserMemory for TimerView<U> {
    ghost use Rattle.std.specs.Prelude.{◌≡◌, false};
    ghost use Rattle.std.proofs.Common.{◌∙◌};
    ghost use Rattle.timer_device.specs.Page.{console_with_timer, may_with_timer, timer_with};

    ghost may = { λ v. may_with_timer v.on (U.may v.inner) };

    ghost console = { λ v. console_with_timer v.on (U.console v.inner) };

    // What stands under the page stays as it is, and no access shows it.
    ghost content = { λ v. U.content v.inner };

    ghost out = { λ v. U.out v.inner };

    ghost timer = { λ v. timer_with v.on (record { steps = v.steps; compare = v.timer }) (U.timer v.inner) };

    ghost fit = { λ v. U.fit v.inner };

    ghost faults = { λ v. U.faults v.inner };

    // Beside what `inner` keeps: where the page is, and the steps done, and a timer whose page isn't there.
    ghost same_rest = { λ a b. (b.on ≡ a.on) × (b.steps ≡ a.steps) × (a.on ≡ false → b.timer ≡ a.timer)
        × ((before : U) → U.same_rest before a.inner → U.same_rest before b.inner) };

    ghost bounded = { λ v. U.bounded v.inner };

    ghost rest_over = { λ a b c x y. (y.0 ∙ x.0, y.1 ∙ x.1, λ off. y.2 (x.0 ∙ off) ∙ x.2 off, λ before h. y.3 before (x.3 before h)) };

    fn fetch(&mut self, va: u32) -> Result<Option<u32>, Failed> {
        if self.serves(va) {
            return Ok(None);
        }
        self.inner.fetch(va)
    }

    fn load(&mut self, va: u32, width: Width) -> Result<Option<u32>, Failed> {
        if self.serves(va) {
            return Ok(Some(self.timer.load(va % PAGE_SIZE, width, self.steps)));
        }
        self.inner.load(va, width)
    }

    fn store(&mut self, va: u32, width: Width, value: u32) -> Result<Stored, Failed> {
        if self.serves(va) {
            self.timer.store(va % PAGE_SIZE, width, value);
            return Ok(Stored::Done);
        }
        self.inner.store(va, width, value)
    }

    fn can_store(&self, va: u32, width: Width) -> bool {
        self.serves(va) || self.inner.can_store(va, width)
    }
}
